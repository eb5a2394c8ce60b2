// What a call answers to C beside its number: each value goes to the lent memory that is its own, and where the call is refused the
// memory keeps what it holds.

#![tactic(auto)]

ghost use Rattle.refusals.specs.Numbers.{tells};
ghost use Rattle.leaving.specs.Leaving.{listed_of, found, head_numbers, numbers_of, Leaves};

use arguments::Multipliers;
use icgem_file::FileHead;
use lines::Found;
use refusals::Refusal;

// One value.
pub fn leave<T: Copy>(told: Result<T, Refusal>, lent: &mut T) -> u32
    ensures { Leaves (tells told) lent.old result lent.new }
{
    match told {
        Ok(value) => {
            *lent = value;
            0
        }
        Err(why) => u32::from(why),
    }
}

// What a file says.
pub fn leave_head(
    told: Result<FileHead, Refusal>,
    degree: &mut u32,
    constant: &mut u64,
    radius: &mut u64,
    system: &mut u32,
) -> u32
    ensures { Leaves (numbers_of (tells told)) (head_numbers degree.old constant.old radius.old system.old) result (head_numbers degree.new constant.new radius.new system.new) }
{
    match told {
        Ok(head) => {
            *degree = head.degree;
            *constant = head.constant;
            *radius = head.radius;
            *system = u32::from(head.system);
            0
        }
        Err(why) => u32::from(why),
    }
}

// In the order of the arguments.
pub fn leave_multipliers(told: Result<Multipliers, Refusal>, multipliers: &mut [i32; 6]) -> u32
    ensures { Leaves (listed_of (tells told)) multipliers.old result multipliers.new }
{
    match told {
        Ok(m) => {
            *multipliers = m.into();
            0
        }
        Err(why) => u32::from(why),
    }
}

pub fn leave_line(
    told: Result<Found, Refusal>,
    index: &mut usize,
    first: &mut i64,
    second: &mut i64,
) -> u32
    ensures { Leaves (tells told) (found index.old first.old second.old) result (found index.new first.new second.new) }
{
    match told {
        Ok(line) => {
            *index = line.index;
            *first = line.first;
            *second = line.second;
            0
        }
        Err(why) => u32::from(why),
    }
}
