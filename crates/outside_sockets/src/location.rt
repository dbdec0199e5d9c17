ghost use Rattle.std.specs.Prelude.{◌≡◌, ◌↔◌, IsSome, IsTrue, IfSome};
ghost use Rattle.outside_sockets.specs.Locations.{address, is_of_socket};

/// What the location of a socket begins with.
const SCHEME: &str = "socket://";

/// The host and the port of the location of a socket, none of another location.
pub fn address_of(location: &str) -> Option<&str>
    ensures form { IsSome result ↔ IsTrue (is_of_socket location.now) }
    ensures address { IfSome result (λ found. found.now ≡ address location.now) }
{
    let rest = location.strip_prefix(SCHEME)?;
    match rest.split_once('/') {
        Some((address, _)) => Some(address),
        None => Some(rest),
    }
}
