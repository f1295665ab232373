ghost use Rattle.std.specs.Prelude.{◌≡◌};
ghost use Rattle.linked_pool.specs.Linking.{no_link};

use link_list::Link;
use named_pool::{Field, Named};
use odb_base::Name;
use std::marker::PhantomData;
use std::mem;

/// An object with its link: the members next to it in the list that it stands in. What the link of an object is that stands
/// in no list isn't said, since one that leaves keeps its own.
#[derive(Drop)]
pub struct Linked<R> {
    pub value: R,
    pub link: Link,
}

impl<R> Linked<R> {
    /// An object that stands in no list.
    pub fn new(value: R) -> Linked<R>
        ensures { result ≡ record { value = value; link = no_link } }
    {
        let link = Link {
            before: 0,
            after: 0,
        };
        Linked { value, link }
    }
}

impl<R: Named> Named for Linked<R> {
    ghost own_name = { λ c. R.own_name c.value };

    ghost with_name = { λ name c. record c { value = R.with_name name c.value } };

    fn name(&self) -> &Name {
        self.value.name()
    }

    fn set_name(&mut self, name: Name) -> Name {
        self.value.set_name(name)
    }

    ghost named = { λ c name. R.named c.value name };
}

/// The link of an object with a name.
pub struct LinkOf {}

impl<R: Named> Field<Linked<R>> for LinkOf {
    ghost use Rattle.std.specs.Prelude.{refl};

    type Value = Link;

    ghost value_of = { λ c. c.link };

    ghost with_value = { λ link c. record c { link = link } };

    fn set(object: &mut Linked<R>, link: Link) -> Link {
        mem::replace(&mut object.link, link)
    }

    ghost named = { λ c link. refl };

    ghost last = { λ c first second. refl };
}

/// A field of an object that has a link beside it.
pub struct Within<F> {
    field: PhantomData<F>,
}

impl<R: Named, F: Field<R>> Field<Linked<R>> for Within<F> {
    ghost use Rattle.linked_pool.specs.Linking.{same_value};

    type Value = F::Value;

    ghost value_of = { λ c. F.value_of c.value };

    ghost with_value = { λ value c. record c { value = F.with_value value c.value } };

    fn set(object: &mut Linked<R>, value: F::Value) -> F::Value {
        F::set(&mut object.value, value)
    }

    ghost named = { λ c value. F.named c.value value };

    ghost last = { λ c first second. same_value c (F.last c.value first second) };
}
