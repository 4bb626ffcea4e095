//! What is true of types. Go specification, "Comparison operators", "Implementing an interface" and "Method sets".

ghost use Rattle.std.specs.Prelude.{◌≡◌, IfOk};
ghost use Rattle.expr_typing.specs.Telling.{Told, method_in};
ghost use Rattle.typed_trees.specs.Tests.{Tests, AreTold};

use crate::around::Around;
use go_base::{NameId, NoMemory, TypeId};
use go_type::{MethodEntry, method_set};

/// Whether values of a type are compared by `==`.
pub fn comparable(around: Around<'_>, of: TypeId) -> bool
    ensures { (tests : Tests) → AreTold around.entry.program.now.types tests → result ≡ tests.answers.comparable of }
{
    go_type::comparable(&around.program.types, of)
}

/// Whether a type implements an interface.
pub fn implements(around: Around<'_>, of: TypeId, interface: TypeId) -> bool
    ensures { (tests : Tests) → AreTold around.entry.program.now.types tests → result ≡ tests.answers.implements of interface }
{
    go_type::implements(&around.program.types, of, interface)
}

/// The type of a method that the method set of a type has, without the receiver.
pub fn method_of(
    around: Around<'_>,
    of: TypeId,
    name: NameId,
    package: u32,
) -> Result<Option<TypeId>, NoMemory>
    ensures { (told : Told around.entry.program.now.types) → IfOk result (λ method. method ≡ told.tests.method_of of name «package») }
{
    let methods = method_set(around.alloc, &around.program.types, of)?;
    Ok(method_in(methods.as_slice(), name, package))
}

/// The type of the first method of a name.
fn method_in(methods: &[MethodEntry], name: NameId, package: u32) -> Option<TypeId>
    ensures { result ≡ method_in name «package» methods.now }
{
    for method in methods {
        if method.name == name && method.package == package {
            return Some(method.of);
        }
    }
    None
}
