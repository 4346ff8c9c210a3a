// Pictures as plain PBM: read and written.
ghost use Rattle.pbm.specs.Calls.{ReadsPbm, WritesPbm};
ghost use Rattle.replies.specs.Replies.{Told, tell_count_of, tell_pbm_of};

use replies::count::CountReply;
use replies::pictures::PbmReply;

// The picture whose text this is: its sides, and its codes, 1 for white and 2 for black.
pub fn sp_read_pbm(text: &[u8], codes: &mut [u32]) -> PbmReply
    ensures { Told tell_pbm_of (λ a. ReadsPbm text.now codes.old a codes.new) result }
{
    PbmReply::from(pbm::read::read_pbm(text, codes))
}

// The text of a picture of width × height codes, each 1 or 2.
pub fn sp_write_pbm(width: usize, height: usize, codes: &[u32], text: &mut [u8]) -> CountReply
    ensures { Told tell_count_of (λ a. WritesPbm width height codes.now text.old a text.new) result }
{
    CountReply::from(pbm::write::write_pbm(width, height, codes, text))
}
