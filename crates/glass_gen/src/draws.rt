//! Numbers that look random, and are the same each time.

ghost use Rattle.std.specs.Prelude.{◌≡◌, ◌<◌, ◌≤◌};
ghost use Rattle.glass_gen.specs.Draws.{next_state, number_of};

/// Replaces the state by the next one of the generator, and gives its number below `n`.
#[tactic(auto, unfolding(crate::specs::Draws::next_state, crate::specs::Draws::number_of))]
pub fn draw(state: &mut u32, n: u32) -> u32
    requires { 1 ≤ n }
    ensures state { state.new ≡ next_state state.old }
    ensures number { result ≡ number_of state.new n }
    ensures below { result < n }
{
    let next = (1_664_525 * u64::from(*state) + 1_013_904_223) % (1 << 32);
    *state = next as u32;
    *state / 65_536 % n
}
