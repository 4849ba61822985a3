//! Tables over the types of data: the list of the types, and a macro that writes a `match` with an arm for each.

/// A `match` with an arm for each type of data, in one of these forms:
///
/// - `each_type!(Union, held, data => value)`: one expression for the data of every type. With `Unknown => other`
///   behind it, data without fields has an expression of its own.
/// - `each_type!(Union as Other, held)`: the same data in the variant of the same name of another union.
/// - `each_type!(Union, (held, others), (data, other) => value; arms)`: one expression for two that are held by the
///   same variant, and arms for any others.
macro_rules! each_type {
    // The names of the types that have fields, in the order of their numbers, go in front of what a form needs.
    (@types $form:ident $($arguments:tt)*) => {
        each_type!(
            @$form [A Aaaa Sshfp Ipseckey Tlsa Cds Cdnskey Openpgpkey Zonemd Svcb Https]
            $($arguments)*
        )
    };
    (@one [$($type:ident)*] $union:ident, $held:expr, $data:ident => $value:expr, $unknown:expr) => {
        match $held {
            $($union::$type($data) => $value,)*
            $union::Unknown($data) => $unknown,
        }
    };
    (@moved [$($type:ident)*] $union:ident, $held:expr, $other:ident) => {
        match $held {
            $($union::$type(data) => $other::$type(data),)*
            $union::Unknown(data) => $other::Unknown(data),
        }
    };
    (@two [$($type:ident)*] $union:ident, $held:expr, ($data:ident, $other:ident) => $value:expr; $($arms:tt)*) => {
        match $held {
            $(($union::$type($data), $union::$type($other)) => $value,)*
            ($union::Unknown($data), $union::Unknown($other)) => $value,
            $($arms)*
        }
    };
    ($union:ident as $other:ident, $held:expr) => {
        each_type!(@types moved $union, $held, $other)
    };
    ($union:ident, $held:expr, $data:ident => $value:expr) => {
        each_type!(@types one $union, $held, $data => $value, $value)
    };
    ($union:ident, $held:expr, $data:ident => $value:expr, Unknown => $unknown:expr) => {
        each_type!(@types one $union, $held, $data => $value, $unknown)
    };
    ($union:ident, $held:expr, ($data:ident, $other:ident) => $value:expr; $($arms:tt)*) => {
        each_type!(@types two $union, $held, ($data, $other) => $value; $($arms)*)
    };
}

pub(crate) use each_type;
