// What lines say of objects is written into the objects.
ghost use Rattle.std.specs.Prelude.{◌≡◌, ℕ};
ghost use Rattle.inp_owners.specs.Placing.{changed_at, with_owned};

use net_types::List;

/// What a line says of an object that another line defines.
pub trait Owned {
    /// What the object is.
    type Object: Drop;

    ghost number_of: { Self → ℕ };

    ghost changed: { Self → Self.Object → Self.Object };

    /// The number of the object.
    fn number(&self) -> u32
        ensures { result ≡ number_of self.now };

    /// Writes it into the object.
    fn change(&self, object: &mut Self::Object)
        ensures { object.new ≡ changed self.now object.old };
}

/// Writes what lines say of objects into them, in order. A number past the last object writes nothing.
pub fn place_owned<O: Owned>(objects: &mut List<O::Object>, owned: &List<O>)
    ensures { objects.new ≡ with_owned O.number_of O.changed owned.now objects.old }
{
    for own in owned.as_slice() {
        place_one(objects, own);
    }
}

/// Writes what a line says into its object.
fn place_one<O: Owned>(objects: &mut List<O::Object>, own: &O)
    ensures { objects.new ≡ changed_at (O.changed own.now) (O.number_of own.now) objects.old }
{
    let number = own.number() as usize;
    let objects = objects.as_mut_slice();
    if number < objects.len() {
        own.change(&mut objects[number]);
    }
}
