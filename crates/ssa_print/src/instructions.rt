//! The texts of instructions.

ghost use Rattle.std.specs.Prelude.{◌≡◌, ◌++◌, OnOk, codes, decimal};
ghost use Rattle.go_text.specs.Joined.{joined};
ghost use Rattle.ssa_print.specs.Instructions.{unary_text, binary_text, compare_text, infix_text, ok_text, operands_text, option_text, arguments_text, call_text, ascending, edge_text, case_text, blocking_text, return_text, op_text};
ghost use Rattle.ssa_print.specs.Operands.{operand_text, function_text};
ghost use Rattle.go_text.specs.Naming.{method_name_text};
ghost use Rattle.go_type.specs.Operators.{text_of};
ghost use Rattle.go_text.specs.TypeText.{type_text_of};

use crate::operands::{Setting, push_words};
use crate::phis::ascending_edges;
use go_base::{BlockId, FuncId, NameId, NoMemory, TypeId};
use go_text::{push_number, separate};
use go_type::{BinaryOp, Builtin, CompareOp, UnaryOp};
use indexmap::IndexSet;
use ssa_ir::{Call, Infix, Op, Operand, PhiEdge, SelectCase};

/// What the texts of a function's instructions are read from.
#[derive(Drop)]
pub struct Writer<'a> {
    pub setting: &'a Setting<'a>,
    /// The registers that the function gives, in the order of the text.
    pub given: &'a IndexSet<u64>,
}

impl<'a> Writer<'a> {
    /// An instruction.
    #[tactic(auto, unfolding(crate::specs::Instructions::op_text))]
    pub fn op(&self, text: &mut Vec<u8>, op: &Op) -> Result<(), NoMemory>
        ensures { OnOk result (text.new.items ≡ text.old.items ++ op_text self.now.setting.now self.now.given.now.keys op.now) }
    {
        match op {
            Op::New(of) => self.typed(text, b"new ", *of),
            Op::Phi(edges) => self.phi(text, edges.as_slice()),
            Op::Binary { op, left, right } => self.binary(text, *op, left, right),
            Op::Unary { op, operand } => self.unary(text, *op, operand),
            Op::Load(at) => self.after(text, b"*", at),
            Op::Store { at, value } => self.store(text, at, value),
            Op::Field { operand, field } => self.field(text, operand, *field),
            Op::FieldAddress { operand, field } => self.field_address(text, operand, *field),
            Op::Index { operand, index } => self.index(text, operand, index),
            Op::IndexAddress { operand, index } => self.index_address(text, operand, index),
            Op::Lookup { map, key, comma_ok } => self.lookup(text, map, key, *comma_ok),
            Op::Update { map, key, value } => self.update(text, map, key, value),
            Op::Slice {
                operand,
                low,
                high,
                max,
            } => self.slice(text, operand, low, high, max),
            Op::Convert { to, operand } => self.converted(text, b"convert ", *to, operand),
            Op::ChangeType { to, operand } => self.converted(text, b"changetype ", *to, operand),
            Op::MakeInterface { to, operand } => self.converted(text, b"make ", *to, operand),
            Op::ChangeInterface { to, operand } => self.converted(
                text,
                b"change interface ",
                *to,
                operand,
            ),
            Op::MakeClosure { function, captured } => self.closure(
                text,
                *function,
                captured.as_slice(),
            ),
            Op::MakeMap(of) => self.typed(text, b"make map ", *of),
            Op::MakeChan { of, size } => self.made_chan(text, *of, size),
            Op::MakeSlice { of, len, cap } => self.made_slice(text, *of, len, cap),
            Op::TypeAssert {
                operand,
                to,
                comma_ok,
            } => self.assertion(text, operand, *to, *comma_ok),
            Op::Call(call) => self.call(text, call),
            Op::Go(call) => self.prefixed_call(text, b"go ", call),
            Op::Defer(call) => self.prefixed_call(text, b"defer ", call),
            Op::RunDefers => push_words(text, b"rundefers"),
            Op::Send { channel, value } => self.send(text, channel, value),
            Op::Receive { channel, comma_ok } => self.receive(text, channel, *comma_ok),
            Op::Select { blocking, cases } => self.select(text, *blocking, cases.as_slice()),
            Op::Range(operand) => self.after(text, b"range ", operand),
            Op::Next(operand) => self.after(text, b"next ", operand),
            Op::Extract { operand, part } => self.part(text, operand, *part),
            Op::Tick => push_words(text, b"tick"),
            Op::Jump(to) => self.jump(text, *to),
            Op::If {
                test,
                then_to,
                else_to,
            } => self.branch(text, test, *then_to, *else_to),
            Op::Return(results) => self.results(text, results.as_slice()),
            Op::Panic(value) => self.after(text, b"panic ", value),
        }
    }

    fn phi(&self, text: &mut Vec<u8>, edges: &[PhiEdge]) -> Result<(), NoMemory>
        ensures { OnOk result (text.new.items ≡ text.old.items ++ (codes "phi [" ++ (joined (codes ", ") (edge_text self.now.setting.now self.now.given.now.keys) (ascending edges.now) ++ codes "]"))) }
    {
        let sorted = ascending_edges(*text.allocator(), edges)?;
        push_words(text, b"phi [")?;
        self.edges(text, sorted.as_slice())?;
        push_words(text, b"]")
    }

    pub fn operand(&self, text: &mut Vec<u8>, operand: &Operand) -> Result<(), NoMemory>
        ensures { OnOk result (text.new.items ≡ text.old.items ++ (operand_text self.now.setting.now self.now.given.now.keys operand.now)) }
    {
        self.setting.push_operand(text, self.given, operand)
    }

    /// Words and an operand.
    fn after(&self, text: &mut Vec<u8>, words: &[u8], operand: &Operand) -> Result<(), NoMemory>
        ensures { OnOk result (text.new.items ≡ text.old.items ++ (words.now ++ (operand_text self.now.setting.now self.now.given.now.keys operand.now))) }
    {
        push_words(text, words)?;
        self.operand(text, operand)
    }

    /// Words and a type.
    fn typed(&self, text: &mut Vec<u8>, words: &[u8], of: TypeId) -> Result<(), NoMemory>
        ensures { OnOk result (text.new.items ≡ text.old.items ++ (words.now ++ (type_text_of self.now.setting.now.naming of))) }
    {
        push_words(text, words)?;
        self.setting.push_type(text, of)
    }

    /// A conversion.
    fn converted(
        &self,
        text: &mut Vec<u8>,
        words: &[u8],
        to: TypeId,
        operand: &Operand,
    ) -> Result<(), NoMemory>
        ensures { OnOk result (text.new.items ≡ text.old.items ++ (words.now ++ (type_text_of self.now.setting.now.naming to ++ (codes " <- " ++ (operand_text self.now.setting.now self.now.given.now.keys operand.now))))) }
    {
        push_words(text, words)?;
        self.setting.push_type(text, to)?;
        push_words(text, b" <- ")?;
        self.operand(text, operand)
    }

    fn binary(
        &self,
        text: &mut Vec<u8>,
        op: Infix,
        left: &Operand,
        right: &Operand,
    ) -> Result<(), NoMemory>
        ensures { OnOk result (text.new.items ≡ text.old.items ++ (operand_text self.now.setting.now self.now.given.now.keys left.now ++ (infix_text op ++ (operand_text self.now.setting.now self.now.given.now.keys right.now)))) }
    {
        self.operand(text, left)?;
        push_words(text, infix_words(op))?;
        self.operand(text, right)
    }

    fn unary(&self, text: &mut Vec<u8>, op: UnaryOp, operand: &Operand) -> Result<(), NoMemory>
        ensures { OnOk result (text.new.items ≡ text.old.items ++ (unary_text op ++ (operand_text self.now.setting.now self.now.given.now.keys operand.now))) }
    {
        push_words(text, unary_words(op))?;
        self.operand(text, operand)
    }

    fn store(&self, text: &mut Vec<u8>, at: &Operand, value: &Operand) -> Result<(), NoMemory>
        ensures { OnOk result (text.new.items ≡ text.old.items ++ (codes "*" ++ (operand_text self.now.setting.now self.now.given.now.keys at.now ++ (codes " = " ++ (operand_text self.now.setting.now self.now.given.now.keys value.now))))) }
    {
        push_words(text, b"*")?;
        self.operand(text, at)?;
        push_words(text, b" = ")?;
        self.operand(text, value)
    }

    fn field(&self, text: &mut Vec<u8>, operand: &Operand, field: u32) -> Result<(), NoMemory>
        ensures { OnOk result (text.new.items ≡ text.old.items ++ (operand_text self.now.setting.now self.now.given.now.keys operand.now ++ (codes ".#" ++ (decimal field)))) }
    {
        self.operand(text, operand)?;
        push_words(text, b".#")?;
        push_number(text, field as u64)
    }

    fn field_address(
        &self,
        text: &mut Vec<u8>,
        operand: &Operand,
        field: u32,
    ) -> Result<(), NoMemory>
        ensures { OnOk result (text.new.items ≡ text.old.items ++ (codes "&" ++ (operand_text self.now.setting.now self.now.given.now.keys operand.now ++ (codes ".#" ++ (decimal field))))) }
    {
        push_words(text, b"&")?;
        self.field(text, operand, field)
    }

    fn index(&self, text: &mut Vec<u8>, operand: &Operand, index: &Operand) -> Result<(), NoMemory>
        ensures { OnOk result (text.new.items ≡ text.old.items ++ (operand_text self.now.setting.now self.now.given.now.keys operand.now ++ (codes "[" ++ (operand_text self.now.setting.now self.now.given.now.keys index.now ++ (codes "]"))))) }
    {
        self.operand(text, operand)?;
        push_words(text, b"[")?;
        self.operand(text, index)?;
        push_words(text, b"]")
    }

    fn index_address(
        &self,
        text: &mut Vec<u8>,
        operand: &Operand,
        index: &Operand,
    ) -> Result<(), NoMemory>
        ensures { OnOk result (text.new.items ≡ text.old.items ++ (codes "&" ++ (operand_text self.now.setting.now self.now.given.now.keys operand.now ++ (codes "[" ++ (operand_text self.now.setting.now self.now.given.now.keys index.now ++ (codes "]")))))) }
    {
        push_words(text, b"&")?;
        self.index(text, operand, index)
    }

    fn lookup(
        &self,
        text: &mut Vec<u8>,
        map: &Operand,
        key: &Operand,
        comma_ok: bool,
    ) -> Result<(), NoMemory>
        ensures { OnOk result (text.new.items ≡ text.old.items ++ (codes "lookup " ++ (operand_text self.now.setting.now self.now.given.now.keys map.now ++ (codes "[" ++ (operand_text self.now.setting.now self.now.given.now.keys key.now ++ (codes "]" ++ (ok_text comma_ok))))))) }
    {
        push_words(text, b"lookup ")?;
        self.index(text, map, key)?;
        push_ok(text, comma_ok)
    }

    fn update(
        &self,
        text: &mut Vec<u8>,
        map: &Operand,
        key: &Operand,
        value: &Operand,
    ) -> Result<(), NoMemory>
        ensures { OnOk result (text.new.items ≡ text.old.items ++ (operand_text self.now.setting.now self.now.given.now.keys map.now ++ (codes "[" ++ (operand_text self.now.setting.now self.now.given.now.keys key.now ++ (codes "] = " ++ (operand_text self.now.setting.now self.now.given.now.keys value.now)))))) }
    {
        self.operand(text, map)?;
        push_words(text, b"[")?;
        self.operand(text, key)?;
        push_words(text, b"] = ")?;
        self.operand(text, value)
    }

    fn option(&self, text: &mut Vec<u8>, operand: &Option<Operand>) -> Result<(), NoMemory>
        ensures { OnOk result (text.new.items ≡ text.old.items ++ option_text self.now.setting.now self.now.given.now.keys operand.now) }
    {
        match operand {
            Some(operand) => self.operand(text, operand),
            None => Ok(()),
        }
    }

    fn bounds(
        &self,
        text: &mut Vec<u8>,
        low: &Option<Operand>,
        high: &Option<Operand>,
        max: &Option<Operand>,
    ) -> Result<(), NoMemory>
        ensures { OnOk result (text.new.items ≡ text.old.items ++ (option_text self.now.setting.now self.now.given.now.keys low.now ++ (codes ":" ++ (option_text self.now.setting.now self.now.given.now.keys high.now ++ (codes ":" ++ (option_text self.now.setting.now self.now.given.now.keys max.now)))))) }
    {
        self.option(text, low)?;
        push_words(text, b":")?;
        self.option(text, high)?;
        push_words(text, b":")?;
        self.option(text, max)
    }

    fn slice(
        &self,
        text: &mut Vec<u8>,
        operand: &Operand,
        low: &Option<Operand>,
        high: &Option<Operand>,
        max: &Option<Operand>,
    ) -> Result<(), NoMemory>
        ensures { OnOk result (text.new.items ≡ text.old.items ++ (codes "slice " ++ (operand_text self.now.setting.now self.now.given.now.keys operand.now ++ (codes "[" ++ (option_text self.now.setting.now self.now.given.now.keys low.now ++ (codes ":" ++ (option_text self.now.setting.now self.now.given.now.keys high.now ++ (codes ":" ++ (option_text self.now.setting.now self.now.given.now.keys max.now ++ (codes "]")))))))))) }
    {
        push_words(text, b"slice ")?;
        self.operand(text, operand)?;
        push_words(text, b"[")?;
        self.bounds(text, low, high, max)?;
        push_words(text, b"]")
    }

    /// Operands, with commas between them.
    fn operands(&self, text: &mut Vec<u8>, operands: &[Operand]) -> Result<(), NoMemory>
        ensures { OnOk result (text.new.items ≡ text.old.items ++ operands_text self.now.setting.now self.now.given.now.keys operands.now) }
    {
        for (index, operand) in operands.iter().enumerate() {
            separate(text, b", ", index)?;
            self.operand(text, operand)?;
        }
        Ok(())
    }

    fn closure(
        &self,
        text: &mut Vec<u8>,
        function: FuncId,
        captured: &[Operand],
    ) -> Result<(), NoMemory>
        ensures { OnOk result (text.new.items ≡ text.old.items ++ (codes "make closure " ++ (function_text self.now.setting.now function ++ (codes " [" ++ (operands_text self.now.setting.now self.now.given.now.keys captured.now ++ (codes "]")))))) }
    {
        push_words(text, b"make closure ")?;
        self.setting.push_function(text, function)?;
        push_words(text, b" [")?;
        self.operands(text, captured)?;
        push_words(text, b"]")
    }

    fn made_chan(&self, text: &mut Vec<u8>, of: TypeId, size: &Operand) -> Result<(), NoMemory>
        ensures { OnOk result (text.new.items ≡ text.old.items ++ (codes "make chan " ++ (type_text_of self.now.setting.now.naming of ++ (codes " " ++ (operand_text self.now.setting.now self.now.given.now.keys size.now))))) }
    {
        push_words(text, b"make chan ")?;
        self.setting.push_type(text, of)?;
        push_words(text, b" ")?;
        self.operand(text, size)
    }

    fn made_slice(
        &self,
        text: &mut Vec<u8>,
        of: TypeId,
        len: &Operand,
        cap: &Operand,
    ) -> Result<(), NoMemory>
        ensures { OnOk result (text.new.items ≡ text.old.items ++ (codes "make slice " ++ (type_text_of self.now.setting.now.naming of ++ (codes " " ++ (operand_text self.now.setting.now self.now.given.now.keys len.now ++ (codes " " ++ (operand_text self.now.setting.now self.now.given.now.keys cap.now))))))) }
    {
        push_words(text, b"make slice ")?;
        self.setting.push_type(text, of)?;
        push_words(text, b" ")?;
        self.operand(text, len)?;
        push_words(text, b" ")?;
        self.operand(text, cap)
    }

    fn assertion(
        &self,
        text: &mut Vec<u8>,
        operand: &Operand,
        to: TypeId,
        comma_ok: bool,
    ) -> Result<(), NoMemory>
        ensures { OnOk result (text.new.items ≡ text.old.items ++ (codes "typeassert " ++ (operand_text self.now.setting.now self.now.given.now.keys operand.now ++ (codes ".(" ++ (type_text_of self.now.setting.now.naming to ++ (codes ")" ++ (ok_text comma_ok))))))) }
    {
        push_words(text, b"typeassert ")?;
        self.operand(text, operand)?;
        self.asserted(text, to, comma_ok)
    }

    fn asserted(&self, text: &mut Vec<u8>, to: TypeId, comma_ok: bool) -> Result<(), NoMemory>
        ensures { OnOk result (text.new.items ≡ text.old.items ++ (codes ".(" ++ (type_text_of self.now.setting.now.naming to ++ (codes ")" ++ ok_text comma_ok)))) }
    {
        push_words(text, b".(")?;
        self.setting.push_type(text, to)?;
        push_words(text, b")")?;
        push_ok(text, comma_ok)
    }

    fn arguments(&self, text: &mut Vec<u8>, arguments: &[Operand]) -> Result<(), NoMemory>
        ensures { OnOk result (text.new.items ≡ text.old.items ++ arguments_text self.now.setting.now self.now.given.now.keys arguments.now) }
    {
        push_words(text, b"(")?;
        self.operands(text, arguments)?;
        push_words(text, b")")
    }

    fn call(&self, text: &mut Vec<u8>, call: &Call) -> Result<(), NoMemory>
        ensures { OnOk result (text.new.items ≡ text.old.items ++ call_text self.now.setting.now self.now.given.now.keys call.now) }
    {
        match call {
            Call::Static {
                function,
                arguments,
            } => self.static_call(text, *function, arguments.as_slice()),
            Call::Dynamic { callee, arguments } => self.dynamic_call(
                text,
                callee,
                arguments.as_slice(),
            ),
            Call::Invoke {
                receiver,
                name,
                package,
                arguments,
            } => { self.invoke(text, receiver, *name, *package, arguments.as_slice()) }
            Call::Builtin { builtin, arguments } => self.builtin(
                text,
                *builtin,
                arguments.as_slice(),
            ),
        }
    }

    fn static_call(
        &self,
        text: &mut Vec<u8>,
        function: FuncId,
        arguments: &[Operand],
    ) -> Result<(), NoMemory>
        ensures { OnOk result (text.new.items ≡ text.old.items ++ (function_text self.now.setting.now function ++ (arguments_text self.now.setting.now self.now.given.now.keys arguments.now))) }
    {
        self.setting.push_function(text, function)?;
        self.arguments(text, arguments)
    }

    fn dynamic_call(
        &self,
        text: &mut Vec<u8>,
        callee: &Operand,
        arguments: &[Operand],
    ) -> Result<(), NoMemory>
        ensures { OnOk result (text.new.items ≡ text.old.items ++ (codes "call " ++ (operand_text self.now.setting.now self.now.given.now.keys callee.now ++ (arguments_text self.now.setting.now self.now.given.now.keys arguments.now)))) }
    {
        push_words(text, b"call ")?;
        self.operand(text, callee)?;
        self.arguments(text, arguments)
    }

    fn invoke(
        &self,
        text: &mut Vec<u8>,
        receiver: &Operand,
        name: NameId,
        package: u32,
        arguments: &[Operand],
    ) -> Result<(), NoMemory>
        ensures { OnOk result (text.new.items ≡ text.old.items ++ (codes "invoke " ++ (operand_text self.now.setting.now self.now.given.now.keys receiver.now ++ (codes "." ++ (method_name_text self.now.setting.now.naming.names self.now.setting.now.naming.labels name «package» ++ (arguments_text self.now.setting.now self.now.given.now.keys arguments.now)))))) }
    {
        push_words(text, b"invoke ")?;
        self.operand(text, receiver)?;
        push_words(text, b".")?;
        self.setting.push_method(text, name, package)?;
        self.arguments(text, arguments)
    }

    fn builtin(
        &self,
        text: &mut Vec<u8>,
        builtin: Builtin,
        arguments: &[Operand],
    ) -> Result<(), NoMemory>
        ensures { OnOk result (text.new.items ≡ text.old.items ++ (codes "builtin " ++ (text_of builtin ++ (arguments_text self.now.setting.now self.now.given.now.keys arguments.now)))) }
    {
        push_words(text, b"builtin ")?;
        push_words(text, builtin.text().as_bytes())?;
        self.arguments(text, arguments)
    }

    fn prefixed_call(&self, text: &mut Vec<u8>, words: &[u8], call: &Call) -> Result<(), NoMemory>
        ensures { OnOk result (text.new.items ≡ text.old.items ++ (words.now ++ (call_text self.now.setting.now self.now.given.now.keys call.now))) }
    {
        push_words(text, words)?;
        self.call(text, call)
    }

    fn send(&self, text: &mut Vec<u8>, channel: &Operand, value: &Operand) -> Result<(), NoMemory>
        ensures { OnOk result (text.new.items ≡ text.old.items ++ (codes "send " ++ (operand_text self.now.setting.now self.now.given.now.keys channel.now ++ (codes " <- " ++ (operand_text self.now.setting.now self.now.given.now.keys value.now))))) }
    {
        push_words(text, b"send ")?;
        self.operand(text, channel)?;
        push_words(text, b" <- ")?;
        self.operand(text, value)
    }

    fn receive(&self, text: &mut Vec<u8>, channel: &Operand, comma_ok: bool) -> Result<(), NoMemory>
        ensures { OnOk result (text.new.items ≡ text.old.items ++ (codes "<-" ++ (operand_text self.now.setting.now self.now.given.now.keys channel.now ++ (ok_text comma_ok)))) }
    {
        push_words(text, b"<-")?;
        self.operand(text, channel)?;
        push_ok(text, comma_ok)
    }

    fn case(&self, text: &mut Vec<u8>, case: &SelectCase) -> Result<(), NoMemory>
        ensures { OnOk result (text.new.items ≡ text.old.items ++ case_text self.now.setting.now self.now.given.now.keys case.now) }
    {
        match case {
            SelectCase::Send { channel, value } => self.case_send(text, channel, value),
            SelectCase::Receive { channel } => self.after(text, b"<-", channel),
        }
    }

    fn case_send(
        &self,
        text: &mut Vec<u8>,
        channel: &Operand,
        value: &Operand,
    ) -> Result<(), NoMemory>
        ensures { OnOk result (text.new.items ≡ text.old.items ++ (operand_text self.now.setting.now self.now.given.now.keys channel.now ++ (codes " <- " ++ (operand_text self.now.setting.now self.now.given.now.keys value.now)))) }
    {
        self.operand(text, channel)?;
        push_words(text, b" <- ")?;
        self.operand(text, value)
    }

    fn cases(&self, text: &mut Vec<u8>, cases: &[SelectCase]) -> Result<(), NoMemory>
        ensures { OnOk result (text.new.items ≡ text.old.items ++ joined (codes ", ") (case_text self.now.setting.now self.now.given.now.keys) cases.now) }
    {
        for (index, case) in cases.iter().enumerate() {
            separate(text, b", ", index)?;
            self.case(text, case)?;
        }
        Ok(())
    }

    fn select(
        &self,
        text: &mut Vec<u8>,
        blocking: bool,
        cases: &[SelectCase],
    ) -> Result<(), NoMemory>
        ensures { OnOk result (text.new.items ≡ text.old.items ++ (blocking_text blocking ++ (joined (codes ", ") (case_text self.now.setting.now self.now.given.now.keys) cases.now ++ (codes "]")))) }
    {
        push_words(text, blocking_words(blocking))?;
        self.cases(text, cases)?;
        push_words(text, b"]")
    }

    fn edge(&self, text: &mut Vec<u8>, edge: &PhiEdge) -> Result<(), NoMemory>
        ensures { OnOk result (text.new.items ≡ text.old.items ++ edge_text self.now.setting.now self.now.given.now.keys edge.now) }
    {
        push_number(text, edge.from.number)?;
        push_words(text, b": ")?;
        self.operand(text, &edge.value)
    }

    fn edges(&self, text: &mut Vec<u8>, edges: &[PhiEdge]) -> Result<(), NoMemory>
        ensures { OnOk result (text.new.items ≡ text.old.items ++ joined (codes ", ") (edge_text self.now.setting.now self.now.given.now.keys) edges.now) }
    {
        for (index, edge) in edges.iter().enumerate() {
            separate(text, b", ", index)?;
            self.edge(text, edge)?;
        }
        Ok(())
    }

    fn part(&self, text: &mut Vec<u8>, operand: &Operand, part: u32) -> Result<(), NoMemory>
        ensures { OnOk result (text.new.items ≡ text.old.items ++ (codes "extract " ++ (operand_text self.now.setting.now self.now.given.now.keys operand.now ++ (codes " #" ++ (decimal part))))) }
    {
        push_words(text, b"extract ")?;
        self.operand(text, operand)?;
        push_words(text, b" #")?;
        push_number(text, part as u64)
    }

    fn jump(&self, text: &mut Vec<u8>, to: BlockId) -> Result<(), NoMemory>
        ensures { OnOk result (text.new.items ≡ text.old.items ++ (codes "jump " ++ (decimal to.number))) }
    {
        push_words(text, b"jump ")?;
        push_number(text, to.number)
    }

    fn branch(
        &self,
        text: &mut Vec<u8>,
        test: &Operand,
        then_to: BlockId,
        else_to: BlockId,
    ) -> Result<(), NoMemory>
        ensures { OnOk result (text.new.items ≡ text.old.items ++ (codes "if " ++ (operand_text self.now.setting.now self.now.given.now.keys test.now ++ (codes " goto " ++ (decimal then_to.number ++ (codes " else " ++ (decimal else_to.number))))))) }
    {
        push_words(text, b"if ")?;
        self.operand(text, test)?;
        push_words(text, b" goto ")?;
        push_number(text, then_to.number)?;
        push_words(text, b" else ")?;
        push_number(text, else_to.number)
    }

    fn results(&self, text: &mut Vec<u8>, results: &[Operand]) -> Result<(), NoMemory>
        ensures { OnOk result (text.new.items ≡ text.old.items ++ return_text self.now.setting.now self.now.given.now.keys results.now) }
    {
        push_words(text, b"return")?;
        if results.is_empty() {
            return Ok(());
        }
        push_words(text, b" ")?;
        self.operands(text, results)
    }
}

fn push_ok(text: &mut Vec<u8>, comma_ok: bool) -> Result<(), NoMemory>
    ensures { OnOk result (text.new.items ≡ text.old.items ++ ok_text comma_ok) }
{
    if comma_ok {
        push_words(text, b",ok")?;
    }
    Ok(())
}

fn blocking_words(blocking: bool) -> &'static [u8]
    ensures { result.now ≡ blocking_text blocking }
{
    if blocking {
        b"select blocking ["
    } else {
        b"select nonblocking ["
    }
}

fn unary_words(op: UnaryOp) -> &'static [u8]
    ensures { result.now ≡ unary_text op }
{
    match op {
        UnaryOp::Negate => b"-",
        UnaryOp::Complement => b"^",
        UnaryOp::Not => b"!",
    }
}

fn infix_words(op: Infix) -> &'static [u8]
    ensures { result.now ≡ infix_text op }
{
    match op {
        Infix::Operate(op) => binary_words(op),
        Infix::Compare(op) => compare_words(op),
    }
}

fn binary_words(op: BinaryOp) -> &'static [u8]
    ensures { result.now ≡ binary_text op }
{
    match op {
        BinaryOp::Add => b" + ",
        BinaryOp::Sub => b" - ",
        BinaryOp::Mul => b" * ",
        BinaryOp::Div => b" / ",
        BinaryOp::Rem => b" % ",
        BinaryOp::And => b" & ",
        BinaryOp::Or => b" | ",
        BinaryOp::Xor => b" ^ ",
        BinaryOp::AndNot => b" &^ ",
        BinaryOp::ShiftLeft => b" << ",
        BinaryOp::ShiftRight => b" >> ",
    }
}

fn compare_words(op: CompareOp) -> &'static [u8]
    ensures { result.now ≡ compare_text op }
{
    match op {
        CompareOp::Equal => b" == ",
        CompareOp::NotEqual => b" != ",
        CompareOp::Less => b" < ",
        CompareOp::LessEqual => b" <= ",
        CompareOp::Greater => b" > ",
        CompareOp::GreaterEqual => b" >= ",
    }
}
