//! Lists of the parts of types. A contract sees each as a list.

ghost use Rattle.std.specs.Prelude.{◌≡◌, ◌++◌, ◌∷◌, [], OnOk, OnErr, IfOk};

use crate::term::{Field, MethodType};
use go_base::{NoMemory, TypeId};
use std::alloc::Global;
use std::hash::{Hash, Hasher};
use std::marker::Model;

/// Types, in order.
#[derive(Drop)]
pub struct TypeIds {
    ids: Vec<TypeId>,
}

impl Model for TypeIds {
    ghost use Rattle.std.specs.Prelude.{List};
    ghost use Rattle.go_base.specs.declared.ids.TypeId.{TypeId};

    ghost Value = { List TypeId };

    ghost view = { λ t. t.ids.items };
}

impl TypeIds {
    /// No types.
    pub fn new(alloc: Global) -> TypeIds
        ensures { result ≡ [] }
    {
        TypeIds {
            ids: Vec::new(alloc),
        }
    }

    /// Adds a type at the end. After `NoMemory` the list is as before.
    pub fn push(&mut self, id: TypeId) -> Result<(), NoMemory>
        ensures ok { OnOk result (self.new ≡ self.old ++ id ∷ []) }
        ensures err { OnErr result (self.new ≡ self.old) }
    {
        self.ids.push(id)?;
        Ok(())
    }

    /// The types themselves.
    pub fn as_slice(&self) -> &[TypeId]
        ensures { result.now ≡ self.now }
    {
        self.ids.as_slice()
    }

    /// The same types once more.
    pub fn copy(&self, alloc: Global) -> Result<TypeIds, NoMemory>
        ensures { IfOk result (λ copy. copy ≡ self.now) }
    {
        Ok(TypeIds {
            ids: Vec::from_slice(alloc, self.ids.as_slice())?,
        })
    }
}

impl PartialEq for TypeIds {
    ghost use Rattle.go_type.specs.Same.{same_ids, same_ids_equiv};
    ghost use Rattle.std.specs.Cmp.{partial_equiv_from_equiv};

    ghost eq = { same_ids };

    ghost laws = { partial_equiv_from_equiv same_ids_equiv };

    fn eq(&self, other: &TypeIds) -> bool {
        self.ids.as_slice() == other.ids.as_slice()
    }
}

impl Eq for TypeIds {
    ghost use Rattle.go_type.specs.Same.{same_ids_equiv};

    ghost laws = { same_ids_equiv };
}

impl Hash for TypeIds {
    ghost use Rattle.go_type.specs.Same.{same_ids_hash, same_ids_alike};

    ghost hash_input = { same_ids_hash };

    ghost respects_eq = { same_ids_alike };

    fn hash<H: Hasher>(&self, state: &mut H) {
        self.ids.as_slice().hash(state);
    }
}

/// The fields of a struct, in order.
#[derive(Drop)]
pub struct Fields {
    fields: Vec<Field>,
}

impl Model for Fields {
    ghost use Rattle.std.specs.Prelude.{List};
    ghost use Rattle.go_type.specs.declared.term.Field.{Field};

    ghost Value = { List Field };

    ghost view = { λ f. f.fields.items };
}

impl Fields {
    /// No fields.
    pub fn new(alloc: Global) -> Fields
        ensures { result ≡ [] }
    {
        Fields {
            fields: Vec::new(alloc),
        }
    }

    /// Adds a field at the end. After `NoMemory` the list is as before.
    pub fn push(&mut self, field: Field) -> Result<(), NoMemory>
        ensures ok { OnOk result (self.new ≡ self.old ++ field ∷ []) }
        ensures err { OnErr result (self.new ≡ self.old) }
    {
        self.fields.push(field)?;
        Ok(())
    }

    /// The fields themselves.
    pub fn as_slice(&self) -> &[Field]
        ensures { result.now ≡ self.now }
    {
        self.fields.as_slice()
    }

    /// The same fields once more.
    pub fn copy(&self, alloc: Global) -> Result<Fields, NoMemory>
        ensures { IfOk result (λ copy. copy ≡ self.now) }
    {
        let mut copy = Fields::new(alloc);
        for field in self.fields.as_slice() {
            copy.push(field.copy(alloc)?)?;
        }
        Ok(copy)
    }
}

impl PartialEq for Fields {
    ghost use Rattle.go_type.specs.Same.{same_fields, same_fields_equiv};
    ghost use Rattle.std.specs.Cmp.{partial_equiv_from_equiv};

    ghost eq = { same_fields };

    ghost laws = { partial_equiv_from_equiv same_fields_equiv };

    fn eq(&self, other: &Fields) -> bool {
        self.fields.as_slice() == other.fields.as_slice()
    }
}

impl Eq for Fields {
    ghost use Rattle.go_type.specs.Same.{same_fields_equiv};

    ghost laws = { same_fields_equiv };
}

impl Hash for Fields {
    ghost use Rattle.go_type.specs.Same.{same_fields_hash, same_fields_alike};

    ghost hash_input = { same_fields_hash };

    ghost respects_eq = { same_fields_alike };

    fn hash<H: Hasher>(&self, state: &mut H) {
        self.fields.as_slice().hash(state);
    }
}

/// The methods of an interface, ascending by the number of the name's id, then by package.
#[derive(Drop)]
pub struct MethodTypes {
    methods: Vec<MethodType>,
}

impl Model for MethodTypes {
    ghost use Rattle.std.specs.Prelude.{List};
    ghost use Rattle.go_type.specs.declared.term.MethodType.{MethodType};

    ghost Value = { List MethodType };

    ghost view = { λ m. m.methods.items };
}

impl MethodTypes {
    /// No methods.
    pub fn new(alloc: Global) -> MethodTypes
        ensures { result ≡ [] }
    {
        MethodTypes {
            methods: Vec::new(alloc),
        }
    }

    /// Adds a method at the end. After `NoMemory` the list is as before.
    pub fn push(&mut self, method: MethodType) -> Result<(), NoMemory>
        ensures ok { OnOk result (self.new ≡ self.old ++ method ∷ []) }
        ensures err { OnErr result (self.new ≡ self.old) }
    {
        self.methods.push(method)?;
        Ok(())
    }

    /// The methods themselves.
    pub fn as_slice(&self) -> &[MethodType]
        ensures { result.now ≡ self.now }
    {
        self.methods.as_slice()
    }

    /// The same methods once more.
    pub fn copy(&self, alloc: Global) -> Result<MethodTypes, NoMemory>
        ensures { IfOk result (λ copy. copy ≡ self.now) }
    {
        Ok(MethodTypes {
            methods: Vec::from_slice(alloc, self.methods.as_slice())?,
        })
    }
}

impl PartialEq for MethodTypes {
    ghost use Rattle.go_type.specs.Same.{same_methods, same_methods_equiv};
    ghost use Rattle.std.specs.Cmp.{partial_equiv_from_equiv};

    ghost eq = { same_methods };

    ghost laws = { partial_equiv_from_equiv same_methods_equiv };

    fn eq(&self, other: &MethodTypes) -> bool {
        self.methods.as_slice() == other.methods.as_slice()
    }
}

impl Eq for MethodTypes {
    ghost use Rattle.go_type.specs.Same.{same_methods_equiv};

    ghost laws = { same_methods_equiv };
}

impl Hash for MethodTypes {
    ghost use Rattle.go_type.specs.Same.{same_methods_hash, same_methods_alike};

    ghost hash_input = { same_methods_hash };

    ghost respects_eq = { same_methods_alike };

    fn hash<H: Hasher>(&self, state: &mut H) {
        self.methods.as_slice().hash(state);
    }
}
