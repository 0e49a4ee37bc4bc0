// The order of a letter by an interchange class: a name for each class.
ghost use Rattle.order.specs.Question.{OrderIs};

use odif::{Class, Edition, Ordered};

#[unsafe(no_mangle)]
pub extern "C" fn odif_order_a(stream: &[u8]) -> Ordered
    ensures { OrderIs Edition.Of1988 Class.A stream.now result }
{
    odif::order(Edition::Of1988, stream, Class::A)
}

#[unsafe(no_mangle)]
pub extern "C" fn odif_order_b(stream: &[u8]) -> Ordered
    ensures { OrderIs Edition.Of1988 Class.B stream.now result }
{
    odif::order(Edition::Of1988, stream, Class::B)
}

#[unsafe(no_mangle)]
pub extern "C" fn odif_order_a_1993(stream: &[u8]) -> Ordered
    ensures { OrderIs Edition.Of1993 Class.A stream.now result }
{
    odif::order(Edition::Of1993, stream, Class::A)
}

#[unsafe(no_mangle)]
pub extern "C" fn odif_order_b_1993(stream: &[u8]) -> Ordered
    ensures { OrderIs Edition.Of1993 Class.B stream.now result }
{
    odif::order(Edition::Of1993, stream, Class::B)
}
