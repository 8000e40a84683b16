// The components of an app. Names stand below; lists of components and the generated class above.
use clean_base::Name;

/// The most components of a list.
pub const MOST_COMPONENTS: usize = 4_096;

#[derive(Clone, Copy, Debug, PartialEq, Eq)]
pub enum ComponentKind {
    Activity,
    Service,
    Receiver,
    Provider,
}

/// A class that the system makes and calls.
#[derive(Debug, Drop, PartialEq, Eq)]
pub struct Component {
    pub kind: ComponentKind,
    pub name: Name,
}
