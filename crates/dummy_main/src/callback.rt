// The methods that the system calls, and the types in their signatures. Nothing stands below; lines and calls above.
ghost use Rattle.std.specs.Prelude.{◌≡◌};
ghost use Rattle.dummy_main.specs.Lifecycle.{method, heading};

/// A type of a callback.
#[derive(Clone, Copy, Debug, PartialEq, Eq)]
pub enum TypeName {
    Void,
    Int,
    Boolean,
    Bundle,
    Context,
    Intent,
    Binder,
    Uri,
    Cursor,
    Values,
    Text,
    Texts,
}

/// A method that the system calls, or the initializer.
#[derive(Clone, Copy, Debug, PartialEq, Eq)]
pub enum Callback {
    Init,
    ActivityCreate,
    Start,
    Resume,
    Pause,
    Stop,
    Restart,
    ActivityDestroy,
    ServiceCreate,
    StartCommand,
    Bind,
    Unbind,
    Rebind,
    ServiceDestroy,
    Receive,
    ProviderCreate,
    Query,
    Insert,
    Update,
    Delete,
    GetType,
}

/// A method as its class declares it.
#[derive(Clone, Copy)]
pub(crate) struct Declared {
    pub(crate) result: TypeName,
    pub(crate) name: &'static str,
    pub(crate) params: &'static [TypeName],
}

fn heading(ty: TypeName, name: &'static str, params: &'static [TypeName]) -> Declared
    ensures { method result.result result.name.now result.params.now ≡ method ty name.now params.now }
{
    Declared {
        result: ty,
        name,
        params,
    }
}

impl Callback {
    /// How the class of a component declares the method.
    pub(crate) fn heading(self) -> Declared
        ensures { method result.result result.name.now result.params.now ≡ heading self }
    {
        match self {
            Self::Init => heading(TypeName::Void, "<init>", &[]),
            Self::ActivityCreate => heading(TypeName::Void, "onCreate", &[TypeName::Bundle]),
            Self::Start => heading(TypeName::Void, "onStart", &[]),
            Self::Resume => heading(TypeName::Void, "onResume", &[]),
            Self::Pause => heading(TypeName::Void, "onPause", &[]),
            Self::Stop => heading(TypeName::Void, "onStop", &[]),
            Self::Restart => heading(TypeName::Void, "onRestart", &[]),
            Self::ActivityDestroy => heading(TypeName::Void, "onDestroy", &[]),
            Self::ServiceCreate => heading(TypeName::Void, "onCreate", &[]),
            Self::StartCommand => heading(
                TypeName::Int,
                "onStartCommand",
                &[TypeName::Intent, TypeName::Int, TypeName::Int],
            ),
            Self::Bind => heading(TypeName::Binder, "onBind", &[TypeName::Intent]),
            Self::Unbind => heading(TypeName::Boolean, "onUnbind", &[TypeName::Intent]),
            Self::Rebind => heading(TypeName::Void, "onRebind", &[TypeName::Intent]),
            Self::ServiceDestroy => heading(TypeName::Void, "onDestroy", &[]),
            Self::Receive => heading(
                TypeName::Void,
                "onReceive",
                &[TypeName::Context, TypeName::Intent],
            ),
            Self::ProviderCreate => heading(TypeName::Boolean, "onCreate", &[]),
            Self::Query => heading(
                TypeName::Cursor,
                "query",
                &[
                    TypeName::Uri,
                    TypeName::Texts,
                    TypeName::Text,
                    TypeName::Texts,
                    TypeName::Text,
                ],
            ),
            Self::Insert => heading(TypeName::Uri, "insert", &[TypeName::Uri, TypeName::Values]),
            Self::Update => heading(
                TypeName::Int,
                "update",
                &[
                    TypeName::Uri,
                    TypeName::Values,
                    TypeName::Text,
                    TypeName::Texts,
                ],
            ),
            Self::Delete => heading(
                TypeName::Int,
                "delete",
                &[TypeName::Uri, TypeName::Text, TypeName::Texts],
            ),
            Self::GetType => heading(TypeName::Text, "getType", &[TypeName::Uri]),
        }
    }
}
