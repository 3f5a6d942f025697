// What a record says, before it is written as numbers.

#[derive(Clone, Copy)]
pub(crate) enum Kind {
    Bool,
    Int,
}

// A constant, or what a variable holds at first: Unknown has a kind too.
#[derive(Clone, Copy)]
pub(crate) enum Value {
    Unknown(Kind),
    Bool(bool),
    Int(u64),
}

// An entry: operands are earlier entries, a variable and a lookup stand by their number.
#[derive(Clone, Copy)]
pub(crate) enum Entry {
    Constant(Value),
    Variable(Kind, u32),
    BoolLookup(u32),
    Not(u32),
    And(u32, u32),
    Less(u32, u32),
    Add(u32, u32),
}

// What a node does. A command is of a word, an assignment of a variable by an entry.
#[derive(Clone, Copy)]
pub(crate) enum Work {
    List,
    Command(u32),
    Assignment(u32, u32),
}

impl Kind {
    pub(crate) fn number(self) -> u8 {
        match self {
            Kind::Bool => 0,
            Kind::Int => 1,
        }
    }
}

impl Value {
    pub(crate) fn kind(self) -> Kind {
        match self {
            Value::Unknown(kind) => kind,
            Value::Bool(_) => Kind::Bool,
            Value::Int(_) => Kind::Int,
        }
    }

    pub(crate) fn is_known(self) -> bool {
        match self {
            Value::Unknown(_) => false,
            Value::Bool(_) => true,
            Value::Int(_) => true,
        }
    }

    pub(crate) fn bits(self) -> u64 {
        match self {
            Value::Unknown(_) => 0,
            Value::Bool(b) => u64::from(b),
            Value::Int(n) => n,
        }
    }
}
