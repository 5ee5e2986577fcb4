// The two questions. A row out of form is refused as such; a refusal shows no bone, and counts none.
ghost use Rattle.std.specs.Prelude.{◌≡◌, ◌≤◌, false, length, count_ones};
ghost use Rattle.std.specs.List.{sum_by};
ghost use Rattle.rules.specs.Outcomes.{outcome, value_or};
ghost use Rattle.rules.specs.Bones.{Tells, bone_shown, bones_shown};

use forms::bones_in;
use rules::Refusal;

// "whether bone n is shown": "bone 0 in the lowest bit of the first byte"; "a bone number not below the count is 3"
pub fn bone_shown(row: &[u8], n: u64) -> Result<bool, Refusal>
    ensures { Tells (bone_shown row.now n) (outcome result) (value_or false result) }
{
    let mask = bones_in(row).ok_or(Refusal::RowForm)?;
    if mask.count as u64 <= n {
        return Err(Refusal::Argument);
    }
    let n = n as usize;
    Ok((row[mask.at + n / 8] >> (n % 8)) & 1 == 1)
}

// Ones counted in each byte, and summed.
fn ones_in(mask: &[u8]) -> u32
    requires { length mask.now ≤ 255 }
    ensures { result ≡ sum_by count_ones mask.now }
{
    mask.iter().map(|byte| byte.count_ones()).sum()
}

// "how many bones are shown"
pub fn bones_shown(row: &[u8]) -> Result<u8, Refusal>
    ensures { Tells (bones_shown row.now) (outcome result) (value_or 0 result) }
{
    let mask = bones_in(row).ok_or(Refusal::RowForm)?;
    Ok(ones_in(&row[mask.at..]) as u8)
}
