use dets_term::Term;

/// What a feed of terms answers.
#[derive(Drop)]
pub enum Fed {
    /// The next term of the stream.
    Term(Term),
    /// More input is needed.
    Again,
    /// The input is finished, and all terms were taken.
    End,
}
