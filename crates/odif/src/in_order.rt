// The order of a letter by an interchange class. No array is lent: the answer is a number and a place.
ghost use Rattle.order.specs.Question.{OrderIs};

use answers::Question;
use elements::Edition;
use order::Class;
pub use order::Ordered;

// Whether a stream is in the order of a class: 0, or one of 1 to 15, or 26 where its elements leave the order. A partner's gateway asks this; what
// the check accepts stays as it is.
pub fn order(edition: Edition, stream: &[u8], class: Class) -> Ordered
    ensures { OrderIs edition class stream.now result }
{
    let told = scratch::ask(
        edition,
        stream,
        Question::Order { class },
        &mut [],
        &mut [],
        &mut [],
    );
    Ordered::from(told)
}
