// A carrier that keeps copies as hands, in words that are lent to it.
use crate::pool::Pool;

pub type WordPool<'a> = Pool<'a, u32>;
