// The lattice filter, in place: stage 10 first, each forward value from that of the stage above.
ghost use Rattle.std.specs.Prelude.{◌≡◌, ◌*◌, ◌-◌, ◌≤◌, ◌<◌};
ghost use Rattle.base.specs.Range.{Between};
ghost use Rattle.filter.specs.Filter.{saturated, scaled, forward_of, memory_of, forward, new_memory};
ghost use Rattle.filter.specs.Ranges.{stages, sum_limit, TenBetween};
ghost use Rattle.filter.specs.Stages.{stage_forward, stage_memory, lowest_forward, lowest_memory};

use crate::range::is_inside;

pub const STAGES: usize = 10;

// A coefficient counts in 512ths.
const K_SHIFT: i32 = 9;

// The range of forward values and memory.
pub const MEMORY_MIN: i32 = -8192;

pub const MEMORY_MAX: i32 = 8191;

// Its ends, the lower first.
const ENDS: [i32; 2] = [MEMORY_MIN, MEMORY_MAX];

// More than any sum that is saturated.
const SUM_LIMIT: i32 = 8388608;

// A forward value or a memory, in their range. Nobody compares or prints it.
#[derive(Clone, Copy)]
struct Held {
    value: i32,
    ghost in_range: { Between 8192 8191 value },
}

// The value, or the end of the range that it lies beyond. Few values lie beyond an end, and the end is looked up so that the compiled code branches on that: the
// stage below then goes on with the value while it is compared, where a choice by computing would make it wait.
#[tactic(auto, unfolding(base::specs::Range::clamped))]
fn saturate(z: i32) -> Held
    requires { Between sum_limit (sum_limit - 1) z }
    ensures { result.value ≡ saturated z }
{
    if is_inside(z, MEMORY_MIN, MEMORY_MAX) {
        return Held { value: z };
    }
    let end = (z + SUM_LIMIT) as usize / SUM_LIMIT as usize;
    Held { value: ENDS[end] }
}

// A stage's coefficient, in its range, and its old memory. Nobody compares or prints it.
#[derive(Clone, Copy)]
struct Stage {
    k: i32,
    memory: Held,
    ghost k_in_range: { Between 512 511 k },
}

impl Stage {
    // The product of the coefficient and a value, divided by 512 and rounded down.
    fn scaled(self, x: Held) -> i32
        ensures value { result ≡ scaled self.k x.value }
        ensures in_range { Between (512 * 8192) (512 * 8192) result }
    {
        self.k * x.value >> K_SHIFT
    }

    // The forward value, from that of the stage above.
    fn forward(self, above: Held) -> Held
        ensures { result.value ≡ forward_of self.k self.memory.value above.value }
    {
        saturate(above.value - self.scaled(self.memory))
    }

    // The new memory above the stage, from its forward value.
    fn memory_above(self, forward: Held) -> Held
        ensures { result.value ≡ memory_of self.k self.memory.value forward.value }
    {
        saturate(self.memory.value + self.scaled(forward))
    }
}

// The stage at index i. What it renews is the memory above its own, which the stage above has used already; the last
// stage has none above it.
// K and memory are no struct, as one with a `&mut` in it has to say in each contract that the `&mut` is the same.
fn stage_at(k: &[i32; STAGES], memory: &mut [i32; STAGES], above: Held, i: usize) -> Held
    requires { (TenBetween 512 511 k.now) × (TenBetween 8192 8191 memory.old) × (i < stages) }
    ensures value { result.value ≡ stage_forward k.now memory.old above.value i }
    ensures memory_after { memory.new ≡ stage_memory k.now memory.old above.value i }
{
    let stage = Stage {
        k: k[i],
        memory: Held { value: memory[i] },
    };
    let forward = stage.forward(above);
    if i + 1 < STAGES {
        memory[i + 1] = stage.memory_above(forward).value;
    }
    forward
}

// The lowest `left` stages, from the forward value of the stage above them. Below stage 1, forward value 1 is new memory 1. A recursion, as
// `lowest_forward` is one: a loop's invariant would say it again.
#[tactic(auto, using(crate::proofs::Lattice::lowest_more, crate::proofs::Ranges::stage_range))]
fn stages(k: &[i32; STAGES], memory: &mut [i32; STAGES], above: Held, left: usize) -> Held
    requires { (TenBetween 512 511 k.now) × (TenBetween 8192 8191 memory.old) × (left ≤ stages) }
    ensures value { result.value ≡ lowest_forward k.now memory.old above.value left }
    ensures memory_after { memory.new ≡ lowest_memory k.now memory.old above.value left }
{
    if left == 0 {
        memory[0] = above.value;
        return above;
    }
    let i = left - 1;
    let forward = stage_at(k, memory, above, i);
    stages(k, memory, forward, i)
}

// Forward value 1 of an input, with the memory renewed. The caller has made sure that K, memory and input are in their ranges.
pub fn filter(k: &[i32; STAGES], memory: &mut [i32; STAGES], input: i32) -> i32
    requires { (TenBetween 512 511 k.now) × (TenBetween 8192 8191 memory.old) × (Between 8192 8191 input) }
    ensures value { result ≡ forward k.now memory.old input }
    ensures memory_after { memory.new ≡ new_memory k.now memory.old input }
{
    stages(k, memory, Held { value: input }, STAGES).value
}
