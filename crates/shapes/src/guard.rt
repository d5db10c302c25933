//! Guards.
ghost use Rattle.std.specs.Prelude.{◌≡◌};
ghost use Rattle.guards_views_spec.specs.Shapes as spec;
ghost use Rattle.shapes.specs.Tests.{Tests};

use crate::shape::Shape;
use values::Val;

/// A shape and a test that answers whether a value meets it.
///
/// The calls that run the test ask that it is such a test (`Tests`); a guard keeps its shape and its test as they were given.
#[derive(Drop)]
pub struct Guard<'a, F> {
    shape: &'a Shape,
    test: F,
}

impl<'a, F: Fn(&Val) -> bool> Guard<'a, F> {
    /// The guard of this shape and this test, which may be called on every value and answers whether the value meets the shape.
    pub fn new(shape: &'a Shape, test: F) -> Guard<'a, F>
        requires { Tests F.Fn test shape.now }
        ensures shape { result.shape.now ≡ shape.now }
        ensures test { result.test ≡ test }
        ensures tests { Tests F.Fn result.test result.shape.now }
    {
        Guard { shape, test }
    }

    /// Whether a value meets the shape, by the test.
    pub fn allows(&self, v: &Val) -> bool
        requires { Tests F.Fn self.now.test self.now.shape.now }
        ensures { result ≡ spec.meets self.now.shape.now v.now }
    {
        (self.test)(v)
    }

    /// The shape. It takes no memory.
    pub fn shape(&self) -> &'a Shape
        ensures { result.now ≡ self.now.shape.now }
    {
        self.shape
    }
}
