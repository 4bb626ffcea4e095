//! Literals that are no values of constants: tags, and functions. Go specification, "Function literals", "Struct types".

use crate::error::lost;
use crate::scope::Scope;
use go_ast::{Kind, Token};
use go_base::{Bytes, FuncId, NoMemory, Pos, TypeId};
use go_names::Extent;
use go_scan::{is_literal, string_value};
use go_sources::SourceFile;
use go_tree::{FunctionDecl, FunctionForm};
use std::alloc::Global;
use typed_parts::{Seen, function_literal};

/// The value of a string literal that is a tag; of none where there is no tag.
pub(crate) fn tag_value(
    alloc: Global,
    source: &SourceFile,
    tag: Option<Token>,
) -> Result<Bytes, NoMemory> {
    let Some(token) = tag else {
        return Ok(Bytes::new(Vec::new(alloc)));
    };
    let text = source.text(token);
    if !is_literal(Kind::Text, text) {
        return Err(lost());
    }
    string_value(alloc, text)
}

impl Scope {
    /// A function literal from its first byte to the brace that ends it, where its signature is sound.
    pub fn literal_met(
        &mut self,
        word: Token,
        close: Token,
        signature: Option<TypeId>,
    ) -> Result<Seen, NoMemory> {
        let at = self.pos(word.start);
        let Some(signature) = signature else {
            return Ok(Seen { at, meaning: None });
        };
        let place = Pos {
            file: self.file,
            offset: word.start,
        };
        let id = match self.literal(place) {
            Some(id) => id,
            None => self.add_literal(place, close, signature)?,
        };
        Ok(Seen::value(at, Some(function_literal(at, id, signature))))
    }

    fn add_literal(
        &mut self,
        at: Pos,
        close: Token,
        signature: TypeId,
    ) -> Result<FuncId, NoMemory> {
        let Some(within) = self.enclosing(at) else {
            return Err(lost());
        };
        let id = FuncId {
            number: self.functions.len() as u64,
        };
        let (name, package) = (self.blank(), self.package);
        self.functions.push(FunctionDecl {
            name,
            package,
            at,
            signature,
            receiver: None,
            has_body: true,
            form: FunctionForm::Literal { within },
        })?;
        self.extents.put(Extent {
            function: id,
            file: at.file,
            first: at.offset,
            last: close.start,
            within: Some(within),
        })?;
        self.literals.insert(at, id)?;
        Ok(id)
    }

    /// The function in which a literal stands: at package level what initialises the package.
    fn enclosing(&self, at: Pos) -> Option<FuncId> {
        match self.extents.innermost(at) {
            Some(function) => Some(function),
            None => self.init_of(self.package),
        }
    }
}
