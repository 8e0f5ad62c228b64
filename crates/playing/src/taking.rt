// Taking the next values of a run file.
ghost use Rattle.std.specs.Prelude.{◌≡◌, ◌+◌, ◌*◌, ◌≤◌, length};
ghost use Rattle.runfile.specs.Bytes.{words_at};
ghost use Rattle.runfile.specs.RunFile.{values_at};

use runfile::values;

// Fills `words` with the values from value `used` on.
#[tactic(auto, using(crate::proofs::Values::words_more, std::proofs::lemmas::Grind::common_steps))]
pub fn take_values(file: &[u8], used: u32, words: &mut [u64])
    requires { used + length words.old ≤ 4294967295 }
    ensures { words.new ≡ words_at (length words.old) file.now (values_at file.now + 8 * used) }
{
    // By index: after a loop over `iter_mut` a proof knows no element.
    for i in 0..words.len() {
        words[i] = values::value(file, used + i as u32);
    }
}
