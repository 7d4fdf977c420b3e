//! The names of variants.

/// The name of a value of an enum whose variants have no fields, as its variant is called. The call lists all of them.
#[macro_export]
macro_rules! variant_name {
    ($value:expr, $kind:ident: $($variant:ident),+) => {
        match $value {
            $($kind::$variant => stringify!($variant),)+
        }
    };
}
