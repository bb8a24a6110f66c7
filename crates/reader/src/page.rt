// The page record: the answer's number and its place; and of a page that is read, how many components it has, whether a bench caption is there, of four
// components width, height, precision and distance, 0 where there is none, and where the bytes of the stream went.
use pieces::Bytes;

#[derive(Clone, Copy)]
pub struct Page {
    pub answer: u8,
    pub place: usize,
    pub components: usize,
    pub caption: bool,
    pub width: [usize; 4],
    pub height: [usize; 4],
    pub precision: [usize; 4],
    pub distance: [usize; 4],
    pub bytes: Bytes,
}
