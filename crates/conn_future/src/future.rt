//! A connection as a future, which gives the bytes that passed on it.
ghost use Rattle.std.specs.Prelude.{◌≡◌, ◌⊎◌, [], IfOk};
ghost use Rattle.futures.specs.Task.{Covers, Keeps};
ghost use Rattle.futures.specs.Poll.{IfReady, OnPending};
ghost use Rattle.outside_polling.specs.Polls.{once_more};
ghost use Rattle.conn_future.specs.Stages.{IsUnanswered, stage_of};
ghost use Rattle.conn_future.specs.Talking.{seen, TalksOn, Gives};

use crate::task::{ConnTask, Traffic};
use futures::Future;
use futures::task::{Context, Poll};
use outside_polling::PollWire;
use std::alloc::AllocError;

impl<W: PollWire + Drop> Future for ConnTask<W> {
    type Output = Result<Traffic, AllocError>;

    fn poll(&mut self, cx: &mut Context<'_>) -> Poll<Result<Traffic, AllocError>>
        ensures pending { OnPending result (((W.told self.new.wire).waits ≡ once_more (W.told self.old.wire).waits)
            ⊎ IsUnanswered (stage_of self.new.kept.next)) }
        ensures talks { OnPending result (TalksOn
            (seen self.old.kept (W.told self.old.wire))
            (seen self.new.kept (W.told self.new.wire))) }
        ensures traffic { IfReady result (λ gave. IfOk gave (λ traffic. Gives
            (seen self.old.kept (W.told self.old.wire))
            (W.told self.new.wire) traffic.read.items traffic.written.items)) }
        // What it gave is not kept.
        ensures none_left { IfReady result (λ gave. IfOk gave (λ _.
            (self.new.kept.read.items ≡ []) × (self.new.kept.written.items ≡ []))) }
        ensures registered { OnPending result (Covers cx.new (λ _. ⊥)) }
        ensures kept { Keeps cx.old cx.new }
    {
        match self.poll() {
            Poll::Pending => cx.yield_now(),
            Poll::Ready(Ok(())) => Poll::Ready(Ok(self.take_traffic())),
            Poll::Ready(Err(AllocError)) => Poll::Ready(Err(AllocError)),
        }
    }
}
