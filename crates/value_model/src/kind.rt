ghost use Rattle.std.specs.Prelude.{◌≡◌};
ghost use Rattle.value_model.specs.Kinds as spec;

/// What a container is.
#[derive(Clone, Copy, Debug, Drop, PartialEq, Eq)]
pub enum Kind {
    /// An object: values under texts.
    Obj,
    /// A list of values.
    List,
    /// A Map of ECMA-262, its keys primitives.
    Map,
    /// A Set of ECMA-262, its members primitives.
    Set,
}

impl Kind {
    /// Whether it is an object.
    pub fn is_object(self) -> bool
        ensures { result ≡ spec.is_object self }
    {
        match self {
            Kind::Obj => true,
            _ => false,
        }
    }

    /// Whether it is a list.
    pub fn is_list(self) -> bool
        ensures { result ≡ spec.is_list self }
    {
        match self {
            Kind::List => true,
            _ => false,
        }
    }

    /// Whether it is a Map.
    pub fn is_map(self) -> bool
        ensures { result ≡ spec.is_map self }
    {
        match self {
            Kind::Map => true,
            _ => false,
        }
    }

    /// Whether it is a Set.
    pub fn is_set(self) -> bool
        ensures { result ≡ spec.is_set self }
    {
        match self {
            Kind::Set => true,
            _ => false,
        }
    }
}
