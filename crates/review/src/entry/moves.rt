// The moves of a schedule as bytes.
ghost use Rattle.std.specs.Prelude.{◌≡◌, ◌*◌, ◌≤◌, ◌++◌, length, drop};
ghost use Rattle.review.specs.SinglePair.{moves_bytes};

// Each move as two bytes, the higher first, at the front of the run; the rest of it stays.
pub(crate) fn write_moves(run: &mut [u8], moves: &[u16])
    requires { 2 * length moves.now ≤ length run.old }
    ensures { run.new ≡ moves_bytes moves.now ++ drop (2 * length moves.now) run.old }
{
    for (place, number) in moves.iter().enumerate() {
        let [high, low] = number.to_be_bytes();
        run[2 * place] = high;
        run[2 * place + 1] = low;
    }
}
