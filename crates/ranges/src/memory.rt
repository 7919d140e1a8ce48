// The caller's memory.
ghost use Rattle.std.specs.Prelude.{◌≡◌, true, ◌++◌, length, drop, is_err, cond, Ok, Err, IfOk, nat_le};
ghost use Rattle.rows.specs.declared.refusal.Refusal.TheVariants.{MemoryTooShort};

use rows::refusal::Refusal;

// Copies the items to the start of memory, and answers how many they are; refused if memory is shorter.
pub(super) fn hand_over<T: Copy>(items: &[T], memory: &mut [T]) -> Result<usize, Refusal>
    ensures answer { result ≡ cond (nat_le (length items.now) (length memory.old)) (Ok (length items.now)) (Err MemoryTooShort) }
    ensures copied { IfOk result (λ k. memory.new ≡ items.now ++ drop k memory.old) }
    ensures untouched_when_refused { is_err result ≡ true → memory.new ≡ memory.old }
{
    if items.len() > memory.len() {
        return Err(Refusal::MemoryTooShort);
    }
    memory[0..items.len()].copy_from_slice(items);
    Ok(items.len())
}
