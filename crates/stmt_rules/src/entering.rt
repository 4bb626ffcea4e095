//! The bodies of functions and literals: their parameters and results, and what becomes of them. Go specification, "Function
//! declarations", "Method declarations", "Function literals".

use crate::frames::{Frame, ResultOf};
use crate::joining::{kept, push_come};
use crate::steps::Steps;
use crate::uses::mentions_from;
use crate::walker::Walker;
use go_ast::Token;
use go_base::{FuncId, NoMemory, Pos, Rule, TypeId, VarId};
use go_names::Mentioned;
use go_places::type_start;
use go_syntax::{Block, Param, Params, ResultForm, Signature, TypeExpr};
use go_tree::{Body, TypedBlock, VarIds};
use go_type::{Signature as SignatureTerm, TypeTerm};
use typed_parts::beside;

/// The types of parameters and results, as far as they are sound, in order.
#[derive(Drop)]
pub struct SignatureTypes {
    pub receiver: Option<TypeId>,
    pub params: Vec<Option<TypeId>>,
    pub results: Vec<Option<TypeId>>,
}

/// A function whose body is walked.
#[derive(Drop)]
pub struct Entered {
    /// None for a literal that is unsound.
    function: Option<FuncId>,
    params: VarIds,
    results: VarIds,
    /// How many variables there were before.
    first_variable: usize,
    /// How many names were read before.
    first_mention: usize,
    /// The function around it.
    outer: Frame,
}

/// A parameter or result: its name, and the type that it is written with.
#[derive(Clone, Copy)]
struct Named {
    name: Option<Token>,
    at: Pos,
}

impl<'s> Walker<'s> {
    /// The types of a declared function, or of a literal that is sound.
    pub fn types_of(&self, function: FuncId) -> Result<SignatureTypes, NoMemory> {
        let mut types = SignatureTypes {
            receiver: None,
            params: Vec::new(self.alloc),
            results: Vec::new(self.alloc),
        };
        let Some(declared) = self.scope.function(function) else {
            return Ok(types);
        };
        types.receiver = declared.receiver;
        if let Some(TypeTerm::Func(signature)) = self.types().get(declared.signature) {
            push_types(&mut types, signature)?;
        }
        Ok(types)
    }

    /// The types of a literal that is unsound, as far as they are not.
    pub fn see_types(&mut self, signature: &Signature) -> Result<SignatureTypes, NoMemory> {
        let mut types = SignatureTypes {
            receiver: None,
            params: Vec::new(self.alloc),
            results: Vec::new(self.alloc),
        };
        let done = self.add_types(signature, &mut types);
        kept(types, done)
    }

    fn add_types(
        &mut self,
        signature: &Signature,
        types: &mut SignatureTypes,
    ) -> Result<(), NoMemory> {
        self.see_params(&signature.params.params, &mut types.params)?;
        match &signature.result {
            ResultForm::None => Ok(()),
            ResultForm::Params(params) => self.see_params(&params.params, &mut types.results),
            ResultForm::TypeForm(form) => push_come(&mut types.results, self.see_type(form)),
        }
    }

    fn see_params(
        &mut self,
        params: &[Param],
        types: &mut Vec<Option<TypeId>>,
    ) -> Result<(), NoMemory> {
        for param in params {
            let of = self.see_param(param)?;
            for _ in 0..param.names.len().max(1) {
                types.push(of)?;
            }
        }
        Ok(())
    }

    fn see_param(&mut self, param: &Param) -> Result<Option<TypeId>, NoMemory> {
        match self.see_type(&param.form)? {
            Some(of) if param.ellipsis.is_some() => {
                Ok(Some(self.scope.hold(TypeTerm::Slice(of))?))
            }
            of => Ok(of),
        }
    }

    /// The body of a function begins: a block with its receiver, parameters and results.
    pub fn enter(
        &mut self,
        function: Option<FuncId>,
        receiver: &Option<Params>,
        signature: &Signature,
    ) -> Result<Entered, NoMemory> {
        let types = match function {
            Some(function) => self.types_of(function)?,
            None => self.see_types(signature)?,
        };
        let outer = std::mem::replace(&mut self.frame, Frame::new(self.alloc));
        let mut entered = Entered {
            function,
            params: VarIds::new(self.alloc),
            results: VarIds::new(self.alloc),
            first_variable: self.scope.variables().len(),
            first_mention: self.scope.mention_count(),
            outer,
        };
        let done = self.enter_names(receiver, signature, &types, &mut entered);
        kept(entered, done)
    }

    /// The block of a function begins, with its receiver, parameters and results.
    fn enter_names(
        &mut self,
        receiver: &Option<Params>,
        signature: &Signature,
        types: &SignatureTypes,
        entered: &mut Entered,
    ) -> Result<(), NoMemory> {
        self.scope.open_block()?;
        if let Some(receiver) = receiver {
            let names = self.names_of(&receiver.params)?;
            let of = [types.receiver];
            self.add_params(&names, &of, &mut entered.params)?;
        }
        let names = self.names_of(&signature.params.params)?;
        self.add_params(&names, &types.params, &mut entered.params)?;
        let names = self.result_names(&signature.result)?;
        self.add_results(&names, &types.results, &mut entered.results)
    }

    /// The names of parameters, in order; None where there is none, with the place of the type.
    fn names_of(&self, params: &[Param]) -> Result<Vec<Named>, NoMemory> {
        let mut names = Vec::new(self.alloc);
        for param in params {
            for name in &param.names {
                names.push(Named {
                    name: Some(name.name),
                    at: self.at(name.name),
                })?;
            }
            if param.names.is_empty() {
                names.push(self.unnamed(&param.form))?;
            }
        }
        Ok(names)
    }

    fn unnamed(&self, form: &TypeExpr) -> Named {
        Named {
            name: None,
            at: self.pos(type_start(form)),
        }
    }

    fn result_names(&self, form: &ResultForm) -> Result<Vec<Named>, NoMemory> {
        match form {
            ResultForm::None => Ok(Vec::new(self.alloc)),
            ResultForm::Params(params) => self.names_of(&params.params),
            ResultForm::TypeForm(written) => {
                let mut names = Vec::new(self.alloc);
                names.push(self.unnamed(written))?;
                Ok(names)
            }
        }
    }

    fn add_params(
        &mut self,
        names: &[Named],
        types: &[Option<TypeId>],
        params: &mut VarIds,
    ) -> Result<(), NoMemory> {
        for (index, named) in names.iter().enumerate() {
            let of = types.get(index).copied().flatten();
            params.push(self.add_named(*named, of)?)?;
        }
        Ok(())
    }

    fn add_results(
        &mut self,
        names: &[Named],
        types: &[Option<TypeId>],
        results: &mut VarIds,
    ) -> Result<(), NoMemory> {
        for (index, named) in names.iter().enumerate() {
            let of = types.get(index).copied().flatten();
            let variable = self.add_named(*named, of)?;
            results.push(variable)?;
            self.frame.results.push(ResultOf {
                variable,
                name: named.name,
                of,
            })?;
        }
        Ok(())
    }

    fn add_named(&mut self, named: Named, of: Option<TypeId>) -> Result<VarId, NoMemory> {
        let name = match named.name {
            Some(token) => self.name(token)?,
            None => self.scope.blank(),
        };
        let variable = self.scope.add_named(name, named.at, of)?;
        Ok(variable)
    }

    /// The body of a function ends.
    pub fn finish(
        &mut self,
        entered: Entered,
        block: &Block,
        steps: Steps,
    ) -> Result<(), NoMemory> {
        self.scope.close_block();
        let Entered {
            function,
            params,
            results,
            first_variable,
            first_mention,
            outer,
        } = entered;
        let inner = std::mem::replace(&mut self.frame, outer);
        let has_defer = inner.has_defer;
        let has_results = !inner.results.is_empty();
        drop(inner);
        if has_results && !steps.ends {
            self.report_later(self.at(block.close), Rule::MissingReturn);
        }
        let captured = self.captured(first_variable, first_mention);
        let (captured, (steps, names)) = beside(captured, (steps, (params, results)))?;
        let names = Some((names, captured));
        let parts = function.zip(steps.into_statements()).zip(names);
        let Some(((function, statements), ((params, results), captured))) = parts else {
            return Ok(());
        };
        let body = Body {
            params,
            results,
            captured,
            has_defer,
            block: TypedBlock {
                at: self.at(block.open),
                end: self.at(block.close),
                statements,
            },
        };
        self.keep_body(function.number as usize, body)
    }

    /// The variables of functions around that were read since a function was entered, ascending.
    fn captured(&self, first_variable: usize, first_mention: usize) -> Result<VarIds, NoMemory> {
        let mut found: Vec<u64> = Vec::new(self.alloc);
        for mention in mentions_from(self.scope.mentions().as_slice(), first_mention) {
            if let Mentioned::Variable(variable) = mention.what {
                if self.is_captured(variable, first_variable) {
                    found.push(variable.number)?;
                }
            }
        }
        found.sort()?;
        found.dedup();
        let mut captured = VarIds::new(self.alloc);
        for number in found {
            captured.push(VarId { number })?;
        }
        Ok(captured)
    }

    /// Whether a variable is of a function around that which has the variables from a number on.
    fn is_captured(&self, variable: VarId, first_variable: usize) -> bool {
        let number = variable.number as usize;
        self.package_variables <= number && number < first_variable
    }
}

/// The types of parameters and results of a function type.
fn push_types(types: &mut SignatureTypes, signature: &SignatureTerm) -> Result<(), NoMemory> {
    for of in signature.params.as_slice() {
        types.params.push(Some(*of))?;
    }
    for of in signature.results.as_slice() {
        types.results.push(Some(*of))?;
    }
    Ok(())
}
