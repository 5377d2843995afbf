//! The exit statuses of a program that is stopped.
ghost use Rattle.std.specs.Prelude.{◌≡◌};
ghost use Rattle.replay_app.specs.Stops.{stop_status};

use outside_core::Stop;

/// Returns the exit status if reading a file failed, writing the output failed, or memory ran out.
pub fn stop_status(stop: Stop) -> u8
    ensures { result ≡ stop_status stop }
{
    match stop {
        Stop::Source => 8,
        Stop::Sink => 9,
        Stop::Memory => 10,
    }
}
