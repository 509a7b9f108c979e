//! A law of files with a header, as the contract of a function that does nothing.
ghost use Rattle.std.specs.Prelude.{◌≡◌, ◌≤◌, List, ℕ, Ok, length};
ghost use Rattle.space_model.specs.Sizes.{segment_units};
ghost use Rattle.file_model.specs.declared.head.Located.{Located};
ghost use Rattle.file_model.specs.Layout.{segment_at, whole_segments};
ghost use Rattle.file_model.specs.Header.{located};

use file_model::laws::a_header_is_located_where_it_is_read;

/// The segments that count in a file whose header was found so end in it.
pub fn the_segments_that_count_lie_in_the_file()
    ensures counted { (f : List ℕ) (l : Located) → located f ≡ Ok l → l.whole ≤ whole_segments segment_units f }
    ensures end { (f : List ℕ) (l : Located) → located f ≡ Ok l → segment_at segment_units l.whole ≤ length f }
{
    a_header_is_located_where_it_is_read();
}
