//! The code of a program.

use crate::error::lost;
use crate::functions::{free_types, lower_body, lower_package_init, param_types, signature_of};
use crate::made::push_made;
use crate::methods::{Line, finished, is_blank, method_lines};
use crate::ordering::{function_order, sorted_needs, wrapper_place};
use crate::renumbering::{Numbers, renumber};
use go_base::{FuncId, Names, NoMemory, TypeId};
use go_text::Labels;
use go_tree::{FunctionDecl, FunctionForm, Program};
use go_type::{TypeIds, TypeTerm, Types};
use indexmap::IndexSet;
use ssa_expr::{Builder, Built, Header};
use ssa_ir::{
    Code, CodeVariable, CodeVariables, Form, Function, FunctionKind, Functions, MethodLines, Needs,
    WrapNeed,
};
use ssa_simple::Flow;
use ssa_wrap::wrapper;
use std::alloc::Global;
use tree_facts::{function_name, is_in_program, labels};

/// A function of the program with its number, and where its needs stand among all needs.
#[derive(Drop)]
struct Made {
    number: u64,
    function: Function,
    /// For each need of the function its number among all.
    needs: Vec<u64>,
}

/// What is built so far.
#[derive(Drop)]
struct Workshop<'a> {
    alloc: Global,
    program: &'a Program,
    labels: Labels,
    /// Those met so far; absent while a function is built.
    types: Option<Types>,
    made: Vec<Made>,
    needs: Vec<WrapNeed>,
    /// The unnamed struct types, and pointers to such, of values that are put into interfaces.
    dynamic: IndexSet<TypeId>,
}

/// What follows from all functions of the program: all types, the methods, and the wrappers.
#[derive(Drop)]
struct Rest {
    types: Types,
    lines: Vec<Line>,
    /// For each line the number of its need among all.
    promoted: Vec<Option<u64>>,
    /// By the number of their need.
    wrappers: Vec<Function>,
}

/// What of a code has numbers of functions.
#[derive(Drop)]
struct Numbered {
    functions: Functions,
    methods: MethodLines,
}

/// What of a code is read off the program.
#[derive(Drop)]
struct Tables {
    names: Names,
    declared: TypeIds,
    variables: CodeVariables,
}

/// The code of a program.
pub fn build(alloc: Global, program: &Program, form: Form) -> Result<Code, NoMemory> {
    let mut workshop = Workshop::new(alloc, program)?;
    workshop.make_all(form)?;
    workshop.finish()
}

impl<'a> Workshop<'a> {
    /// Nothing is built yet.
    fn new(alloc: Global, program: &'a Program) -> Result<Workshop<'a>, NoMemory> {
        let labels = labels(alloc, &program.packages)?;
        let types = program.types.copy(alloc)?;
        Ok(Workshop {
            alloc,
            program,
            labels,
            types: Some(types),
            made: Vec::new(alloc),
            needs: Vec::new(alloc),
            dynamic: IndexSet::new(alloc),
        })
    }

    /// Builds all functions of the program.
    fn make_all(&mut self, form: Form) -> Result<(), NoMemory> {
        let program: &'a Program = self.program;
        let mut number = 0u64;
        for decl in program.functions.as_slice() {
            let function = FuncId { number };
            if is_in_program(program, function) {
                self.make(function, decl, form)?;
            }
            number = number.saturating_add(1);
        }
        Ok(())
    }

    /// Builds a function of the program.
    fn make(&mut self, function: FuncId, decl: &FunctionDecl, form: Form) -> Result<(), NoMemory> {
        let types = self.take_types()?;
        let builder = Builder::new(self.alloc, self.program, types, function, form)?;
        let built = build_function(builder, &self.labels, function, decl)?;
        push_made(
            self.program,
            &built.types,
            &built.function,
            &mut self.dynamic,
        )?;
        self.keep(function.number, built)
    }

    /// A function is built.
    fn keep(&mut self, number: u64, built: Built) -> Result<(), NoMemory> {
        let Built {
            function,
            needs,
            types,
        } = built;
        self.types = Some(types);
        let needs = self.take_needs(&needs)?;
        self.made.push(Made {
            number,
            function,
            needs,
        })?;
        Ok(())
    }

    fn take_types(&mut self) -> Result<Types, NoMemory> {
        match self.types.take() {
            Some(types) => Ok(types),
            None => Err(lost()),
        }
    }

    /// The numbers of needs among all.
    fn take_needs(&mut self, needs: &Needs) -> Result<Vec<u64>, NoMemory> {
        let mut numbers = Vec::new(self.alloc);
        for need in needs.as_slice() {
            numbers.push(self.need(*need)?)?;
        }
        Ok(numbers)
    }

    fn need(&mut self, need: WrapNeed) -> Result<u64, NoMemory> {
        if let Some(place) = self.needs.iter().position(|one| *one == need) {
            return Ok(place as u64);
        }
        let number = self.needs.len() as u64;
        self.needs.push(need)?;
        Ok(number)
    }

    fn finish(self) -> Result<Code, NoMemory> {
        let mut workshop = self;
        let rest = workshop.make_rest()?;
        workshop.assemble(rest)
    }

    fn make_rest(&mut self) -> Result<Rest, NoMemory> {
        let mut types = self.take_types()?;
        let lines = self.lines(&mut types)?;
        let promoted = self.promoted(lines.as_slice())?;
        let wrappers = self.wrappers(&mut types)?;
        Ok(Rest {
            types,
            lines,
            promoted,
            wrappers,
        })
    }

    /// The methods, with pointers to the declared types among the types.
    fn lines(&self, types: &mut Types) -> Result<Vec<Line>, NoMemory> {
        hold_pointers(self.program, types)?;
        method_lines(self.alloc, self.program, &self.labels, types, &self.dynamic)
    }

    /// For each line the number of its need among all.
    fn promoted(&mut self, lines: &[Line]) -> Result<Vec<Option<u64>>, NoMemory> {
        let mut promoted = Vec::new(self.alloc);
        for line in lines {
            promoted.push(self.need_of_line(line)?)?;
        }
        Ok(promoted)
    }

    fn need_of_line(&mut self, line: &Line) -> Result<Option<u64>, NoMemory> {
        match line.need {
            Some(need) => Ok(Some(self.need(need)?)),
            None => Ok(None),
        }
    }

    /// The wrappers, by the number of their need.
    fn wrappers(&self, types: &mut Types) -> Result<Vec<Function>, NoMemory> {
        let mut wrappers = Vec::new(self.alloc);
        for need in self.needs.as_slice() {
            wrappers.push(wrapper(self.alloc, self.program, &self.labels, types, need)?)?;
        }
        Ok(wrappers)
    }

    /// All functions in their order, with their numbers in the code.
    fn assemble(self, rest: Rest) -> Result<Code, NoMemory> {
        let Workshop {
            alloc,
            program,
            labels,
            types: _,
            made,
            needs: _,
            dynamic: _,
        } = self;
        let Rest {
            types,
            lines,
            promoted,
            wrappers,
        } = rest;
        let numbered = number_all(alloc, program, made, wrappers, lines, promoted)?;
        let tables = tables_of(alloc, program)?;
        Ok(Code {
            types,
            names: tables.names,
            packages: labels,
            declared: tables.declared,
            variables: tables.variables,
            methods: numbered.methods,
            functions: numbered.functions,
        })
    }
}

/// The functions in their order, and the lines of methods, which name them.
fn number_all(
    alloc: Global,
    program: &Program,
    made: Vec<Made>,
    wrappers: Vec<Function>,
    lines: Vec<Line>,
    promoted: Vec<Option<u64>>,
) -> Result<Numbered, NoMemory> {
    let mut made = made;
    made.sort_by_key(|one| function_order(program, one.number))?;
    let order = sorted_needs(alloc, wrappers.as_slice())?;
    let numbers = numbers_of(alloc, program, made.as_slice(), order.as_slice())?;
    let functions = functions_of(alloc, made, wrappers, order.as_slice(), &numbers)?;
    let methods = finished(alloc, lines, promoted, &numbers)?;
    Ok(Numbered { functions, methods })
}

/// The functions of the program, then the wrappers.
fn functions_of(
    alloc: Global,
    made: Vec<Made>,
    wrappers: Vec<Function>,
    order: &[u64],
    numbers: &Numbers,
) -> Result<Functions, NoMemory> {
    let mut functions = Functions::new(alloc);
    push_functions(alloc, &mut functions, made, numbers)?;
    push_wrappers(alloc, &mut functions, wrappers, order, numbers)?;
    Ok(functions)
}

fn tables_of(alloc: Global, program: &Program) -> Result<Tables, NoMemory> {
    let names = program.names.copy(alloc)?;
    let declared = declared(alloc, program)?;
    let variables = variables(alloc, program)?;
    Ok(Tables {
        names,
        declared,
        variables,
    })
}

/// Pointers to the declared types that are no interfaces are held.
fn hold_pointers(program: &Program, types: &mut Types) -> Result<(), NoMemory> {
    for one in program.declared.as_slice() {
        let term = TypeTerm::Pointer(one.id);
        if types.can_hold(&term) {
            types.hold(term)?;
        }
    }
    Ok(())
}

/// The code of a function.
fn build_function(
    builder: Builder<'_>,
    labels: &Labels,
    function: FuncId,
    decl: &FunctionDecl,
) -> Result<Built, NoMemory> {
    let mut builder = builder;
    let header = header_of(&mut builder, labels, function, decl)?;
    let builder = lowered(builder, decl)?;
    builder.finish(header)
}

/// What a function is but its blocks.
fn header_of(
    builder: &mut Builder<'_>,
    labels: &Labels,
    function: FuncId,
    decl: &FunctionDecl,
) -> Result<Header, NoMemory> {
    let signature = signature_of(builder, decl.signature)?;
    let params = param_types(builder, decl, &signature)?;
    let name = function_name(builder.allocator(), builder.program(), labels, function)?;
    let free = free_types(builder)?;
    Ok(Header {
        name,
        kind: kind_of(builder, decl),
        params,
        variadic: signature.variadic,
        free,
        results: signature.results,
    })
}

fn kind_of(builder: &Builder<'_>, decl: &FunctionDecl) -> FunctionKind {
    if decl.form == FunctionForm::PackageInit {
        return FunctionKind::Init;
    }
    match builder.body() {
        Some(_) => FunctionKind::Source,
        None => FunctionKind::External,
    }
}

/// A function with its code.
fn lowered<'a>(builder: Builder<'a>, decl: &FunctionDecl) -> Result<Builder<'a>, NoMemory> {
    let exits = Vec::new(builder.allocator());
    let mut flow = Flow { builder, exits };
    lower_function(&mut flow, decl)?;
    let Flow { builder, .. } = flow;
    Ok(builder)
}

fn lower_function(flow: &mut Flow<'_>, decl: &FunctionDecl) -> Result<(), NoMemory> {
    if decl.form == FunctionForm::PackageInit {
        return lower_package_init(flow, decl);
    }
    match flow.builder.body() {
        Some(body) => lower_body(flow, body),
        None => {
            flow.builder.drop_blocks();
            Ok(())
        }
    }
}

/// The numbers in the code of the program's functions and of the needs.
fn numbers_of(
    alloc: Global,
    program: &Program,
    made: &[Made],
    order: &[u64],
) -> Result<Numbers, NoMemory> {
    let count = program.functions.as_slice().len();
    let functions = function_numbers(alloc, count, made)?;
    let wrappers = wrapper_numbers(alloc, made.len() as u64, order)?;
    Ok(Numbers {
        functions,
        wrappers,
    })
}

/// So many zeros.
fn zeros(alloc: Global, count: usize) -> Result<Vec<u64>, NoMemory> {
    let mut numbers = Vec::new(alloc);
    for _ in 0..count {
        numbers.push(0u64)?;
    }
    Ok(numbers)
}

/// For each function of the program its place among those made.
fn function_numbers(alloc: Global, count: usize, made: &[Made]) -> Result<Vec<u64>, NoMemory> {
    let mut functions = zeros(alloc, count)?;
    let mut next = 0u64;
    for one in made {
        if let Some(number) = functions.get_mut(one.number as usize) {
            *number = next;
        }
        next = next.saturating_add(1);
    }
    Ok(functions)
}

/// The numbers of the wrappers, from a first one on.
fn wrapper_numbers(alloc: Global, first: u64, order: &[u64]) -> Result<Vec<u64>, NoMemory> {
    let mut wrappers = Vec::new(alloc);
    for need in 0..order.len() {
        let place = wrapper_place(order, need as u64);
        wrappers.push(first.saturating_add(place))?;
    }
    Ok(wrappers)
}

fn push_functions(
    alloc: Global,
    functions: &mut Functions,
    made: Vec<Made>,
    numbers: &Numbers,
) -> Result<(), NoMemory> {
    for one in made {
        let Made {
            function,
            needs,
            ..
        } = one;
        functions.push(renumber(alloc, function, numbers, needs.as_slice())?)?;
    }
    Ok(())
}

fn push_wrappers(
    alloc: Global,
    functions: &mut Functions,
    wrappers: Vec<Function>,
    order: &[u64],
    numbers: &Numbers,
) -> Result<(), NoMemory> {
    let mut left = all_there(alloc, wrappers)?;
    for need in order {
        let function = taken(&mut left, *need)?;
        functions.push(renumber(alloc, function, numbers, &[])?)?;
    }
    Ok(())
}

/// Functions to be taken one by one.
fn all_there(alloc: Global, functions: Vec<Function>) -> Result<Vec<Option<Function>>, NoMemory> {
    let mut left = Vec::new(alloc);
    for function in functions {
        left.push(Some(function))?;
    }
    Ok(left)
}

/// The function of a number, which then is absent.
fn taken(left: &mut Vec<Option<Function>>, number: u64) -> Result<Function, NoMemory> {
    let taken = match left.get_mut(number as usize) {
        Some(slot) => slot.take(),
        None => None,
    };
    match taken {
        Some(function) => Ok(function),
        None => Err(lost()),
    }
}

/// The declared types but those named `_`.
fn declared(alloc: Global, program: &Program) -> Result<TypeIds, NoMemory> {
    let blank = program.names.find("_");
    let mut ids = TypeIds::new(alloc);
    for one in program.declared.as_slice() {
        if !is_blank(program, one.id, blank) {
            ids.push(one.id)?;
        }
    }
    Ok(ids)
}

/// The variables of packages.
fn variables(alloc: Global, program: &Program) -> Result<CodeVariables, NoMemory> {
    let mut variables = CodeVariables::new(alloc);
    for variable in program.variables.as_slice() {
        if variable.function.is_none() {
            variables.push(CodeVariable {
                name: variable.name,
                package: package_of(program, variable.at.file),
                of: variable.of,
            })?;
        }
    }
    Ok(variables)
}

/// The number of the package that a file belongs to: the one whose first file is the last up to it.
fn package_of(program: &Program, file: u32) -> u32 {
    let mut found = 0u32;
    let mut best = None;
    let mut number = 0u32;
    for package in program.packages.as_slice() {
        if package.first_file <= file && best.is_none_or(|first| first <= package.first_file) {
            best = Some(package.first_file);
            found = number;
        }
        number = number.saturating_add(1);
    }
    found
}
