//! How a company and an item share bits and digits (GS1 Tag Data Standard, SGTIN partition table).
ghost use Rattle.std.specs.Prelude.{◌≡◌, ◌^◌, ◌≤◌, ◌<◌};
ghost use Rattle.epc_sgtin.specs.Partitions.{partition_row};

/// How many digits the company and the item of an SGTIN have together, whatever the partition.
pub(crate) const ITEM_AND_COMPANY_DIGITS: u8 = 13;

/// The bits of the company and of the item together.
pub(crate) const ITEM_AND_COMPANY_BITS: u32 = 44;

/// How many bits the company has, by the partition.
pub(crate) fn company_bits(partition: u8) -> u32
    requires { partition < 7 }
    ensures { result ≡ (partition_row partition).company_bits }
{
    match partition {
        0 => 40,
        1 => 37,
        2 => 34,
        3 => 30,
        4 => 27,
        5 => 24,
        _ => 20,
    }
}

/// Ten to a power: how many numbers so many decimal digits write.
pub(crate) fn ten_to(digits: u8) -> u64
    requires { digits ≤ 12 }
    ensures { result ≡ 10 ^ digits }
{
    10_u64.pow(u32::from(digits))
}
