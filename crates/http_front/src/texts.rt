//! The text of a response, in buffers that are kept.

ghost use Rattle.std.specs.Prelude.{◌≡◌, ℕ, List, OnOk};
ghost use Rattle.http_front.specs.Prelude.{IsExchange, IsDateLine, reply_text, IsReplyWritten, Passes, text_of};

use crate::response::ResponseText;
use filter_chain::BlockBytes;
use http_message::{Clock, Exchange, Reply, closing, middle, put_opening};
use std::alloc::{AllocError, Global};
use std::mem;

/// How many bytes a body has at most that is copied behind its head.
const JOINED_BYTES: usize = 2048;

/// Replaces `text` by that of a response, with the Date line at a moment. A large body is taken out of the reply.
fn put_text(
    alloc: Global,
    reply: &mut Reply,
    moment: u64,
    text: &mut ResponseText,
) -> Result<(), AllocError>
    ensures { OnOk result ((date : List ℕ) × IsDateLine moment date × (text_of text.new ≡ reply_text reply.old date)) }
{
    text.clear(alloc);
    put_opening(reply, moment, &mut text.head)?;
    if middle(reply).len() > JOINED_BYTES {
        text.tail.extend_from_slice(closing(reply).as_bytes())?;
        text.body = mem::replace(&mut reply.body, BlockBytes::new(alloc));
        return Ok(());
    }
    text.head.extend_from_slice(middle(reply))?;
    text.head.extend_from_slice(closing(reply).as_bytes())
}

/// What the clock is told of a reply.
fn exchange_of<'a>(method: &'a [u8], target: &'a [u8], reply: &Reply) -> Exchange<'a>
    ensures { IsExchange method.now target.now reply.now result }
{
    Exchange {
        method,
        target,
        status: reply.status,
        size: middle(reply).len(),
        failure: reply.failure,
    }
}

/// Replaces `text` by that of a response to such a request, with the time that it is. A large body is taken out of the reply. The clock
/// is told of it. Without memory `text` is of no use.
pub(crate) fn put_reply<K: Clock>(
    alloc: Global,
    method: &[u8],
    target: &[u8],
    reply: &mut Reply,
    clock: &mut K,
    text: &mut ResponseText,
) -> Result<(), AllocError>
    ensures written { OnOk result (IsReplyWritten K.tells clock.old method.now target.now reply.old (text_of text.new) clock.new) }
    ensures clock { (from : K) → Passes K.tells from clock.old → Passes K.tells from clock.new }
{
    let moment = clock.now();
    let exchange = exchange_of(method, target, reply);
    put_text(alloc, reply, moment, text)?;
    clock.answered(&exchange);
    Ok(())
}
