//! How far statements and expressions reach: trees are walked by recursion, so one that reaches too far is refused.

ghost use Rattle.std.specs.Prelude.{◌≡◌, ◌≤◌, ◌+◌, OnOk, IfOk};
ghost use Rattle.go_syntax.specs.Reach as counting;
ghost use Rattle.go_syntax.specs.Reach.{reach_index};
ghost use Rattle.go_parse.specs.Counting.{view_counts, IsSummed};

use go_ast::{Kind, Token};
use std::alloc::{AllocError, Global};

/// The greatest reach that a token may have.
const MAX_REACH: usize = 400;

/// The counts of what stands between the brackets that are open.
#[derive(Drop)]
struct Counts {
    /// The count within the innermost brackets.
    top: usize,
    /// The counts around it, the outermost first.
    below: Vec<usize>,
    /// The sum of those around it.
    below_sum: usize,
}

impl Counts {
    /// Behind an opening bracket.
    fn open(&mut self) -> Result<(), AllocError>
        requires summed { IsSummed self.old }
        requires bounded { self.old.below_sum + self.old.top ≤ 400 }
        ensures summed { OnOk result (IsSummed self.new) }
        ensures grown { OnOk result (self.new.below_sum + self.new.top ≤ self.old.below_sum + self.old.top + 1) }
        ensures counted { OnOk result (view_counts self.new ≡ counting.opened (view_counts self.old)) }
    {
        let count = self.top + 1;
        self.below.push(count)?;
        self.below_sum += count;
        self.top = 0;
        Ok(())
    }

    /// Behind a closing bracket.
    fn close(&mut self)
        requires summed { IsSummed self.old }
        requires bounded { self.old.below_sum + self.old.top ≤ 400 }
        ensures summed { IsSummed self.new }
        ensures grown { self.new.below_sum + self.new.top ≤ self.old.below_sum + self.old.top + 1 }
        ensures counted { view_counts self.new ≡ counting.closed (view_counts self.old) }
    {
        match self.below.pop() {
            Some(count) => {
                self.below_sum -= count;
                self.top = count + 1;
            }
            None => self.top += 1,
        }
    }

    /// Behind a token of this kind.
    fn count(&mut self, kind: Kind) -> Result<(), AllocError>
        requires summed { IsSummed self.old }
        requires bounded { self.old.below_sum + self.old.top ≤ 400 }
        ensures summed { OnOk result (IsSummed self.new) }
        ensures grown { OnOk result (self.new.below_sum + self.new.top ≤ self.old.below_sum + self.old.top + 1) }
        ensures counted { OnOk result (view_counts self.new ≡ counting.count kind (view_counts self.old)) }
    {
        match kind {
            Kind::OpenParen | Kind::OpenBracket | Kind::OpenBrace => self.open()?,
            Kind::CloseParen | Kind::CloseBracket | Kind::CloseBrace => self.close(),
            Kind::Semicolon | Kind::Inserted | Kind::Comma => self.top = 0,
            Kind::CaseWord | Kind::DefaultWord => self.top = 1,
            _ => self.top += 1,
        }
        Ok(())
    }

    /// The sum of all counts.
    fn reach(&self) -> usize
        requires bounded { self.now.below_sum + self.now.top ≤ 401 }
        ensures { result ≡ self.now.below_sum + self.now.top }
    {
        self.below_sum + self.top
    }
}

/// The index of the first token that reaches too far.
pub(crate) fn too_deep(alloc: Global, tokens: &[Token]) -> Result<Option<usize>, AllocError>
    ensures { IfOk result (λ index. index ≡ reach_index tokens.now) }
{
    let mut counts = Counts {
        top: 0,
        below: Vec::new(alloc),
        below_sum: 0,
    };
    for (index, token) in tokens.iter().enumerate() {
        counts.count(token.kind)?;
        if counts.reach() > MAX_REACH {
            return Ok(Some(index));
        }
    }
    Ok(None)
}
