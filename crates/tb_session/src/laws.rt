//! The law of a whole session, over the definitions of an answer alone.

ghost use Rattle.std.specs.Prelude.{◌≡◌, ℕ, List};
ghost use Rattle.tb_live.specs.Session.{Session};
ghost use Rattle.tb_read.specs.Text.{lines_of};
ghost use Rattle.tb_session.specs.Answer.{command_lines, IsAnswer, Replies};
ghost use Rattle.tb_session.specs.Laws.{AskNoSeveral};

/// To commands there always are replies. Where none of them is a `go` of several workers, there are no others, and of a
/// program text with such commands there is one answer, which is so a function of what was read.
pub fn one_text()
    ensures some { (workers : ℕ) (s : Session) (lines : List (List ℕ)) →
        (out : List ℕ) × Replies workers s lines out }
    ensures replies { (workers : ℕ) (s : Session) (lines : List (List ℕ)) (out more : List ℕ) →
        AskNoSeveral workers lines → Replies workers s lines out → Replies workers s lines more → out ≡ more }
    ensures answer { (workers limit : ℕ) (bytes out more : List ℕ) →
        AskNoSeveral workers (command_lines (lines_of bytes)) →
        IsAnswer workers limit bytes out → IsAnswer workers limit bytes more → out ≡ more }
{}
