// The executor: document 01, "Execution", with the policies of document 02's Ask 5. A word is decoded, checked against the settings and
// done.
ghost use Rattle.std.specs.Prelude.{◌≡◌, length};
ghost use Rattle.refusal.specs.Refusal.{number_of};
ghost use Rattle.vector_refusal.specs.Refusal.{refusal_of};
ghost use Rattle.vector_execute.specs.Execute.{done_known, executed, vstart_after};

use refusal::Refusal;
use vector_clmul::{Elements, Multiplier};
use vector_element::element::Operands;
use vector_fill::fill;
use vector_ghash::{GhashMultiplier, ghash_vs, ghash_vv};
use vector_kind::Kind;
use vector_product::clmul::Half;
use vector_refusal::refusal;
use vector_registers::settings::Settings;

// The active elements or groups of a word, by its kind.
fn run_known(k: Kind, e: Elements, scalar: u64, file: &mut [u8])
    ensures { file.new ≡ done_known k e.operands.fields e.operands.settings scalar file.old }
{
    let o = e.operands;
    match k {
        Kind::VclmulVv => e.carryless(Half::Low, Multiplier::Vs1, file),
        Kind::VclmulVx => e.carryless(Half::Low, Multiplier::Scalar(e.scalar_of(scalar)), file),
        Kind::VclmulhVv => e.carryless(Half::High, Multiplier::Vs1, file),
        Kind::VclmulhVx => e.carryless(Half::High, Multiplier::Scalar(e.scalar_of(scalar)), file),
        Kind::VghshVv => ghash_vv(GhashMultiplier::YXorX, o, file),
        Kind::VghshVs => ghash_vs(GhashMultiplier::YXorX, o, file),
        Kind::VgmulVv => ghash_vv(GhashMultiplier::YAlone, o, file),
        Kind::VgmulVs => ghash_vs(GhashMultiplier::YAlone, o, file),
    }
}

// Decodes the word, checks it against the settings and does it on the lent register file: its active elements or groups, then what the
// policies fill; vstart is then 0. A refusal leaves the file and the settings as they were.
#[tactic(auto, unfolding(crate::specs::Execute::executed))]
pub fn execute(word: u32, s: &mut Settings, scalar: u64, file: &mut [u8]) -> Result<(), Refusal>
    ensures number { number_of result ≡ refusal_of (length file.old) word s.old }
    ensures settings { s.new ≡ record s.old { vstart = vstart_after (length file.old) word s.old } }
    ensures file { file.new ≡ executed word s.old scalar file.old }
{
    let i = refusal(file.len(), word, *s)?;
    let operands = Operands {
        fields: i.fields,
        settings: *s,
    };
    let elements = Elements { operands };
    run_known(i.kind, elements, scalar, file);
    fill(operands, file);
    s.vstart = 0;
    Ok(())
}
