// An answer as numbers: its place in the requirement's list, and its values.
#![tactic(auto)]

ghost use Rattle.std.specs.Prelude.{◌≡◌, get_or};
ghost use Rattle.session.specs.Answers.{answer_number, answer_values};

use session::Answer;

// Go 0, send 1, image 2, open 3, bytes 4, empty read 5, close 6, finished 7, refused 8. An answer is three numbers, each asked for by itself: no `From`.
pub fn answer_number(a: Answer) -> u32
    ensures { result ≡ answer_number a }
{
    match a {
        Answer::Go => 0,
        Answer::Send(_) => 1,
        Answer::Image(_, _) => 2,
        Answer::Open(_) => 3,
        Answer::Bytes(_) => 4,
        Answer::EmptyRead => 5,
        Answer::Close(_) => 6,
        Answer::Finished(_, _) => 7,
        Answer::Refused(_) => 8,
    }
}

// Its first value, 0 where it has none.
pub fn first_value(a: Answer) -> u64
    ensures { result ≡ get_or (answer_values a) 0 0 }
{
    match a {
        Answer::Go | Answer::EmptyRead => 0,
        Answer::Send(k)
        | Answer::Image(k, _)
        | Answer::Open(k)
        | Answer::Bytes(k)
        | Answer::Close(k) => k as u64,
        Answer::Finished(how, _) => u8::from(how) as u64,
        Answer::Refused(why) => u8::from(why) as u64,
    }
}

// Its second value, 0 where it has none.
pub fn second_value(a: Answer) -> u64
    ensures { result ≡ get_or (answer_values a) 1 0 }
{
    match a {
        Answer::Image(_, k) => k as u64,
        Answer::Finished(_, reads) => reads,
        _ => 0,
    }
}
