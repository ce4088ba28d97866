// The owner of a line.
ghost use Rattle.std.specs.Prelude.{◌≡◌, option_map};
ghost use Rattle.inp_forms.specs.Context.{context_of};
ghost use Rattle.inp_owners.specs.Owners.{name_of_object};

use inp_forms::{Known, Objects, object_number};

/// The name that a line gives, if it is that of an object of this kind.
pub fn owner_name<'a>(
    known: &Known<'a>,
    objects: Objects,
    name: Option<&'a [u8]>,
) -> Option<&'a [u8]>
    ensures { option_map (λ name. name.now) result
        ≡ name_of_object (context_of known.now) objects (option_map (λ name. name.now) name.entry) }
{
    match name {
        Some(name) if object_number(known, objects, name).is_some() => Some(name),
        _ => None,
    }
}
