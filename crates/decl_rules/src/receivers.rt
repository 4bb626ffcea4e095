//! The base types of receivers, and what is embedded. Go specification, "Method declarations", "Struct types".

ghost use Rattle.std.specs.Prelude.{◌≡◌, ◌↔◌, None, Some, slice_index_or, slice_get, true};
ghost use Rattle.decl_nodes.specs.Numbered.{kind_at};
ghost use Rattle.decl_rules.specs.declared.receivers.Receiver.{Receiver};
ghost use Rattle.decl_rules.specs.Denoting.{AreDenoted};
ghost use Rattle.decl_rules.specs.Receivers.{IsBadEmbedded, IsBadReceiver, IsBase, bad_embedded, bad_receiver, bad_under, base_by, is_interface, is_pointer, pointed_base, same_package};

use crate::denoting::{Denoted, Denoting};
use decl_nodes::{Kind, Nodes};
use go_type::{TypeTerm, Types};

/// The declared type of a receiver, and whether the receiver is a pointer to it.
#[derive(Clone, Copy)]
pub struct Receiver {
    pub declared: usize,
    pub pointer: bool,
}

/// The declared type that a receiver's type is, or points to.
pub fn receiver_base(nodes: &Nodes, denoting: &Denoting, form: usize) -> Option<Receiver>
    ensures { AreDenoted nodes.now.list denoting.now → (r : Receiver) → (result ≡ Some r) ↔ IsBase nodes.now.list form r }
{
    found_base(nodes, denoting, form)
}

fn found_base(nodes: &Nodes, denoting: &Denoting, form: usize) -> Option<Receiver>
    ensures { result ≡ base_by nodes.now.list denoting.now (slice_index_or denoting.now.denoted.items form None) }
{
    match denoting.denoted(form)? {
        Denoted::Declared(declared) => Some(Receiver {
            declared,
            pointer: false,
        }),
        Denoted::Form(form) => pointed_base(denoting, nodes.kind(form)?),
        Denoted::Predeclared(_) => None,
    }
}

fn pointed_base(denoting: &Denoting, kind: &Kind) -> Option<Receiver>
    ensures { result ≡ pointed_base denoting.now (Some kind.now) }
{
    let Kind::Pointer(to) = kind else {
        return None;
    };
    match denoting.denoted(*to)? {
        Denoted::Declared(declared) => Some(Receiver {
            declared,
            pointer: true,
        }),
        _ => None,
    }
}

/// Whether a receiver's type is none of a declared type of the package that is no pointer and no interface, or of a pointer
/// to one.
pub fn is_bad_receiver(
    nodes: &Nodes,
    types: &Types,
    denoting: &Denoting,
    receiver: usize,
    form: usize,
) -> bool
    ensures { AreDenoted nodes.now.list denoting.now → (result ≡ true) ↔ IsBadReceiver nodes.now.list types.now receiver form }
{
    is_bad(nodes, types, denoting, receiver, form)
}

fn is_bad(nodes: &Nodes, types: &Types, denoting: &Denoting, receiver: usize, form: usize) -> bool
    ensures { result ≡ bad_receiver nodes.now.list types.now denoting.now receiver (slice_index_or denoting.now.denoted.items form None) }
{
    if denoting.denoted(form).is_none() {
        return false;
    }
    match found_base(nodes, denoting, form) {
        None => true,
        Some(base) => is_bad_base(nodes, types, denoting, receiver, base.declared),
    }
}

fn is_bad_base(
    nodes: &Nodes,
    types: &Types,
    denoting: &Denoting,
    receiver: usize,
    declared: usize,
) -> bool
    ensures { result ≡ bad_under nodes.now.list types.now (same_package (slice_get nodes.now.list declared) (slice_get nodes.now.list receiver)) (slice_index_or denoting.now.under.items declared None) }
{
    match denoting.under(declared) {
        None => false,
        Some(under) => {
            !is_own(nodes, declared, receiver)
                || is_pointer(nodes, under)
                || is_interface(nodes, types, under)
        }
    }
}

fn is_own(nodes: &Nodes, declared: usize, receiver: usize) -> bool
    ensures { result ≡ same_package (slice_get nodes.now.list declared) (slice_get nodes.now.list receiver) }
{
    let Some(declared) = nodes.get(declared) else {
        return false;
    };
    match nodes.get(receiver) {
        Some(receiver) => declared.package == receiver.package,
        None => false,
    }
}

/// Whether a type is embedded in a struct though it is a pointer, or a pointer to a pointer or an interface.
pub fn is_bad_embedded(
    nodes: &Nodes,
    types: &Types,
    denoting: &Denoting,
    name: usize,
    pointer: bool,
) -> bool
    ensures { AreDenoted nodes.now.list denoting.now → (result ≡ true) ↔ IsBadEmbedded nodes.now.list types.now name pointer }
{
    is_embedded_badly(nodes, types, denoting.under(name), pointer)
}

fn is_embedded_badly(nodes: &Nodes, types: &Types, under: Option<Denoted>, pointer: bool) -> bool
    ensures { result ≡ bad_embedded nodes.now.list types.now pointer under }
{
    match under {
        None => false,
        Some(under) => {
            is_pointer(nodes, under) || (pointer && is_interface(nodes, types, under))
        }
    }
}

/// Whether an underlying type is a pointer.
pub fn is_pointer(nodes: &Nodes, under: Denoted) -> bool
    ensures { result ≡ is_pointer nodes.now.list under }
{
    match under {
        Denoted::Form(form) => matches!(nodes.kind(form), Some(Kind::Pointer(_))),
        Denoted::Declared(_) | Denoted::Predeclared(_) => false,
    }
}

/// Whether an underlying type is an interface, as that of `error` is.
pub fn is_interface(nodes: &Nodes, types: &Types, under: Denoted) -> bool
    ensures { result ≡ is_interface nodes.now.list types.now under }
{
    match under {
        Denoted::Form(form) => matches!(nodes.kind(form), Some(Kind::Interface(_))),
        Denoted::Predeclared(of) => !matches!(types.get(of), Some(TypeTerm::Basic(_))),
        Denoted::Declared(_) => false,
    }
}
