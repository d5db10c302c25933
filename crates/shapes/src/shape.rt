use guards_views_spec::Simple;
use std::marker::Model;
use value_model::{Safe, Text};

/// What a value has to be. The names of an object ascend strictly, the required ones and the allowed ones each by themselves.
///
/// A contract sees it as a `Shape` of `guards_views_spec`.
#[cycle(shape)]
#[derive(Drop)]
pub struct Shape {
    /// Which shape it is.
    pub form: Form,
}

/// The forms of shapes.
#[cycle(shape)]
#[derive(Drop)]
pub enum Form {
    /// A primitive of a kind, or any value.
    One(Simple),
    /// An integer between the two, both of them included.
    Range(Safe, Safe),
    /// A list whose elements all meet a shape.
    List(Box<Shape>),
    /// An object whose values all meet a shape.
    Table(Box<Shape>),
    /// A Map whose values all meet a shape.
    Map(Box<Shape>),
    /// A Set whose members are all of a kind.
    Set(Simple),
    /// An object.
    Obj {
        /// The names that it has to have, with what their values meet.
        must: Vec<Named>,
        /// The names that it may have besides. A name that stands in both is required.
        may: Vec<Named>,
    },
    /// What meets at least one of these.
    Or(Vec<Shape>),
}

/// A name of an object and the shape of its value.
#[cycle(shape)]
#[derive(Drop)]
pub struct Named {
    /// The name.
    pub name: Text,
    /// What its value meets.
    pub shape: Shape,
}

impl Model for Shape {
    ghost use Rattle.guards_views_spec.specs.Shapes.{Shape, shapes};
    ghost use Rattle.guards_views_spec.specs.ShapeCode.{coded_shape};

    ghost Value = { Shape };

    ghost coded = { coded_shape };

    ghost use Rattle.shapes.specs.Seen.{seen, Ascends};

    ghost view = { λ s. seen s.form };

    ghost invariant = { λ s. Ascends s.form };

    ghost size = { shapes };

    ghost use Rattle.shapes.specs.Falls.{falls};
    ghost use Rattle.std.proofs.Common.{arith};

    ghost size_decreases = { λ a h. omega (arith, falls a.form) };
}
