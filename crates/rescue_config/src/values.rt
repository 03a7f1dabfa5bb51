ghost use Rattle.std.specs.Prelude.{◌≡◌, is_some};
ghost use Rattle.std.specs.List.{list_all};
ghost use Rattle.toml.specs.Data.{as_table};
ghost use Rattle.toml.specs.View.{view};
ghost use Rattle.rescue_config.specs.Version.{version_in};
ghost use Rattle.rescue_config.specs.Fields.{is_table_list, address_in, ret_in, limit_in, kind_in};

use crate::version::Version;
use guest_words::limits::RESCUES;
use guest_words::{Kind, Ret};
use toml::Value;

/// The version that the value is, if it is one.
pub fn as_version(value: &Value) -> Option<Version>
    ensures { result ≡ version_in (view value.now) }
{
    match value.as_integer()? {
        1 => Some(Version::One),
        2 => Some(Version::Two),
        3 => Some(Version::Three),
        _ => None,
    }
}

/// Whether all values are tables.
fn are_tables(values: &[Value]) -> bool
    ensures { result ≡ list_all (λ value. is_some (as_table (view value))) values.now }
{
    values.iter().all(|value| value.is_table())
}

/// Whether the value is an array of tables.
pub fn is_table_list(value: &Value) -> bool
    ensures { result ≡ is_table_list (view value.now) }
{
    match value.as_array() {
        Some(values) => are_tables(values.as_slice()),
        None => false,
    }
}

/// The address that the value is, if it is one.
pub fn as_address(value: &Value) -> Option<u64>
    ensures { result ≡ address_in (view value.now) }
{
    u64::try_from(value.as_integer()?).ok()
}

/// What a rescued call returns, if the value says it.
pub fn as_ret(value: &Value) -> Option<Ret>
    ensures { result ≡ ret_in (view value.now) }
{
    match value {
        Value::Integer(code) => Some(Ret::Code(code.cast_unsigned())),
        Value::String(text) if text.as_str() == "void" => Some(Ret::Void),
        _ => None,
    }
}

/// The greatest number of rescues of a point, if the value is one.
pub fn as_limit(value: &Value) -> Option<u32>
    ensures { result ≡ limit_in (view value.now) }
{
    let limit = u32::try_from(value.as_integer()?).ok()?;
    if 1 <= limit && limit <= RESCUES {
        Some(limit)
    } else {
        None
    }
}

/// How a point takes part, if the value says it in a file of this version.
pub fn as_kind(version: Version, value: &Value) -> Option<Kind>
    ensures { result ≡ kind_in version (view value.now) }
{
    match value.as_str()? {
        "blocking" => Some(Kind::Blocking),
        "off" => Some(Kind::Off),
        "loose" if version.has_loose() => Some(Kind::Loose),
        _ => None,
    }
}
