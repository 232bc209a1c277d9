// A carrier that keeps copies as the bytes of frames, in memory that is lent to it.
use crate::pool::Pool;

pub type FramePool<'a> = Pool<'a, u8>;
