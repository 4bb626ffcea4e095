//! The forms of planned code. What a step holds is small, so that the steps of a loop lie close together.

use go_base::{FuncId, NameId, TypeId};
use go_type::{CompareOp, ConstOp, IntKind};
use go_value::{BoundTarget, Value};
use indexmap::IndexMap;

/// An operand.
#[derive(Drop)]
pub enum Arg {
    /// A slot of the frame: its parameters, then its free variables, then its registers.
    Slot(u32),
    /// What the cell holds to which the pointer in a slot of the frame points.
    Cell(u32),
    /// A value that is there already.
    Held(Box<Value>),
}

/// What a function is to the machine.
#[derive(Clone, Copy, PartialEq, Eq)]
pub enum Role {
    /// Its entry spends a tick and counts as a frame.
    Source,
    /// The initialisation of a package.
    Init,
    /// Passes a call on, and is not seen by `recover`.
    Wrapper,
    /// `os.Exit`.
    Exit,
    /// `runtime.Gosched`.
    Gosched,
}

/// A function.
#[derive(Drop)]
pub struct PlannedFunction {
    pub role: Role,
    /// Whether it is the wrapper of a promoted method, so that an invoke in it passes one embedded interface more.
    pub promotes: bool,
    pub params: u32,
    /// How many slots a frame has.
    pub slots: u32,
    pub blocks: Vec<PlannedBlock>,
    pub recover: Option<u32>,
}

/// A block: its phis, which are read all at once as it is entered, and its steps.
#[derive(Drop)]
pub struct PlannedBlock {
    pub phis: Vec<PlannedPhi>,
    pub steps: Vec<Step>,
}

/// A phi.
#[derive(Drop)]
pub struct PlannedPhi {
    pub to: u32,
    pub edges: Vec<PlannedEdge>,
}

/// What a phi is where its block is entered from another.
#[derive(Drop)]
pub struct PlannedEdge {
    pub from: u32,
    pub value: Arg,
}

/// The name of a method, with its package where it is not exported.
#[derive(Clone, Copy, PartialEq, Eq, Hash)]
pub struct MethodName {
    pub name: NameId,
    pub package: u32,
}

/// What is sliced.
#[derive(Clone, Copy, PartialEq, Eq)]
pub enum CutForm {
    Slice,
    Text,
    /// What a pointer to an array of a length points to.
    Array(u64),
}

/// Where a part that is sliced begins and ends, and how far it may grow.
#[derive(Drop)]
pub struct Bounds {
    pub low: Option<Arg>,
    pub high: Option<Arg>,
    pub max: Option<Arg>,
}

/// A conversion that changes the value.
#[derive(Clone, Copy, PartialEq, Eq)]
pub enum ConvertForm {
    Int(IntKind),
    IntToText,
    BytesToText,
    RunesToText,
    TextToBytes,
    TextToRunes,
}

/// A call of a built-in function.
#[derive(Drop)]
pub enum BuiltinForm {
    /// With items.
    Append { leaves: u32 },
    /// With the elements of a slice.
    AppendSlice { leaves: u32 },
    /// With the bytes of a text.
    AppendText { leaves: u32 },
    Cap,
    ClearMap,
    /// Each element becomes the zero value.
    ClearSlice { zero: Box<Value> },
    Close,
    Copy,
    CopyText,
    Delete,
    Len,
    Max,
    Min,
    Panic,
    Print,
    Println,
    Recover,
}

/// What is called.
#[derive(Drop)]
pub enum Callee {
    Function(u32),
    Value(Arg),
    Method { receiver: Arg, method: MethodName },
    Builtin(BuiltinForm),
}

/// A call.
#[derive(Drop)]
pub struct PlannedCall {
    pub callee: Callee,
    pub arguments: Vec<Arg>,
}

/// A case of a select.
#[derive(Drop)]
pub enum PlannedCase {
    Send { channel: Arg, value: Arg },
    /// With what is received of a closed channel.
    Receive { channel: Arg, zero: Box<Value> },
}

/// What an instruction does. `to` is the slot of its register.
#[derive(Drop)]
pub enum Step {
    New {
        zero: Box<Value>,
        to: u32,
    },
    Arithmetic {
        op: ConstOp,
        kind: IntKind,
        left: Arg,
        right: Arg,
        to: u32,
    },
    Shift {
        left: bool,
        kind: IntKind,
        value: Arg,
        count: Arg,
        to: u32,
    },
    Join {
        left: Arg,
        right: Arg,
        to: u32,
    },
    CompareInts {
        op: CompareOp,
        left: Arg,
        right: Arg,
        to: u32,
    },
    CompareTexts {
        op: CompareOp,
        left: Arg,
        right: Arg,
        to: u32,
    },
    /// Whether two values of any type are equal, or are not.
    Equal {
        wanted: bool,
        left: Arg,
        right: Arg,
        to: u32,
    },
    Negate {
        kind: IntKind,
        operand: Arg,
        to: u32,
    },
    Complement {
        kind: IntKind,
        operand: Arg,
        to: u32,
    },
    Not {
        operand: Arg,
        to: u32,
    },
    Load {
        at: Arg,
        to: u32,
    },
    Store {
        at: Arg,
        value: Arg,
    },
    Field {
        operand: Arg,
        field: u32,
        to: u32,
    },
    FieldAddress {
        operand: Arg,
        field: u32,
        to: u32,
    },
    Element {
        operand: Arg,
        index: Arg,
        to: u32,
    },
    Byte {
        operand: Arg,
        index: Arg,
        to: u32,
    },
    SliceElement {
        operand: Arg,
        index: Arg,
        to: u32,
    },
    ArrayElement {
        operand: Arg,
        index: Arg,
        len: u64,
        to: u32,
    },
    Lookup {
        map: Arg,
        key: Arg,
        zero: Box<Value>,
        comma_ok: bool,
        to: u32,
    },
    Update {
        map: Arg,
        key: Arg,
        value: Arg,
    },
    Cut {
        form: CutForm,
        operand: Arg,
        bounds: Box<Bounds>,
        to: u32,
    },
    Convert {
        form: ConvertForm,
        operand: Arg,
        to: u32,
    },
    /// The value stays as it is.
    Keep {
        operand: Arg,
        to: u32,
    },
    MakeInterface {
        of: TypeId,
        operand: Arg,
        to: u32,
    },
    Closure {
        function: FuncId,
        captured: Vec<Arg>,
        to: u32,
    },
    Bind {
        target: BoundTarget,
        is_interface: bool,
        receiver: Arg,
        to: u32,
    },
    MakeMap {
        to: u32,
    },
    MakeChan {
        leaves: u32,
        size: Arg,
        to: u32,
    },
    MakeSlice {
        zero: Box<Value>,
        leaves: u32,
        len: Arg,
        cap: Arg,
        to: u32,
    },
    Assert {
        operand: Arg,
        wanted: TypeId,
        zero: Box<Value>,
        comma_ok: bool,
        to: u32,
    },
    Call {
        call: PlannedCall,
        to: Option<u32>,
    },
    Go {
        call: PlannedCall,
    },
    Defer {
        call: PlannedCall,
    },
    RunDefers,
    Send {
        channel: Arg,
        value: Arg,
    },
    Receive {
        channel: Arg,
        zero: Box<Value>,
        comma_ok: bool,
        to: u32,
    },
    Select {
        blocking: bool,
        cases: Vec<PlannedCase>,
        to: u32,
    },
    Range {
        operand: Arg,
        to: u32,
    },
    NextText {
        range: u32,
        to: u32,
    },
    NextMap {
        range: u32,
        key: Box<Value>,
        value: Box<Value>,
        to: u32,
    },
    Extract {
        operand: Arg,
        part: u32,
        to: u32,
    },
    Tick,
    Jump {
        to: u32,
    },
    If {
        test: Arg,
        then_to: u32,
        else_to: u32,
    },
    Return {
        values: Vec<Arg>,
    },
    Panic {
        value: Arg,
    },
}

/// The function that a method of a type is.
#[derive(Clone, Copy, PartialEq, Eq, Hash)]
pub struct MethodOf {
    pub receiver: TypeId,
    pub method: MethodName,
}

/// A code as the machine runs it.
#[derive(Drop)]
pub struct Plan {
    pub functions: Vec<PlannedFunction>,
    pub methods: IndexMap<MethodOf, u32>,
    /// The zero values of the package variables.
    pub variables: Vec<Value>,
    /// What goroutine 0 calls, one after another: the initialisation of each package, then `main.main`.
    pub starts: Vec<u32>,
    /// The type `errorString` of package `runtime`, where the code has it.
    pub error_string: Option<TypeId>,
}
