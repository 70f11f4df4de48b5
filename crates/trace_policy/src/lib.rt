// The policy byte of a trace's record: document 02, Ask 5.
#![tactic(auto)]

ghost use Rattle.std.specs.Prelude.{◌≡◌};
ghost use Rattle.trace_policy.specs.Policy.{policy_of};

// The policy byte.
pub fn policy_of(vta: bool, vma: bool) -> u32
    ensures { result ≡ policy_of vta vma }
{
    u32::from(vta) + 2 * u32::from(vma)
}
