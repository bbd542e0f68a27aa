ghost use Rattle.std.specs.Prelude.{◌≡◌, ◌++◌, if◌then◌else◌, OnOk};
ghost use Rattle.std.specs.List.{flat_map};
ghost use Rattle.capture_write.specs.Numbers.{number_bytes};

use pk_base::NoMemory;

/// A number of so many bytes.
#[derive(Clone, Copy)]
pub enum Number {
    Two(u16),
    Four(u32),
    Eight(u64),
}

/// Writes numbers one behind the other.
pub fn push_numbers(bytes: &mut Vec<u8>, little: bool, numbers: &[Number]) -> Result<(), NoMemory>
    ensures { OnOk result (bytes.new.items
        ≡ bytes.old.items ++ flat_map (number_bytes little) numbers.now) }
{
    for number in numbers {
        push_number(bytes, little, *number)?;
    }
    Ok(())
}

/// Writes a number.
pub fn push_number(bytes: &mut Vec<u8>, little: bool, number: Number) -> Result<(), NoMemory>
    ensures { OnOk result (bytes.new.items ≡ bytes.old.items ++ number_bytes little number) }
{
    match number {
        Number::Two(n) => push_ordered(bytes, little, &n.to_le_bytes(), &n.to_be_bytes()),
        Number::Four(n) => push_ordered(bytes, little, &n.to_le_bytes(), &n.to_be_bytes()),
        Number::Eight(n) => push_ordered(bytes, little, &n.to_le_bytes(), &n.to_be_bytes()),
    }
}

/// Writes a number's bytes, the lowest first or the highest.
fn push_ordered(
    bytes: &mut Vec<u8>,
    little: bool,
    low_first: &[u8],
    high_first: &[u8],
) -> Result<(), NoMemory>
    ensures { OnOk result (bytes.new.items
        ≡ bytes.old.items ++ (if little then low_first.now else high_first.now)) }
{
    if little {
        bytes.extend_from_slice(low_first)?;
    } else {
        bytes.extend_from_slice(high_first)?;
    }
    Ok(())
}
