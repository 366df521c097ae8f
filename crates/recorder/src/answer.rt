// What a recorded call answers.
use paper::answer::Refusal;
use request::reply::Reply;

// What a call with its record came to: the number, the call's reply, and how many bytes the record has, 0 where there is none. Without room no call is made; the number is then
// NO ROOM, and the reply a refusal, so that nobody takes the call for done.
#[derive(Clone, Copy)]
pub struct Recorded {
    pub number: u32,
    pub reply: Result<Reply, Refusal>,
    pub size: usize,
}
