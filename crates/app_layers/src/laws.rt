ghost use Rattle.app_layers.specs.Framing.{DnsFramed};

/// In a stream a message of DNS ends where the two bytes before it tell.
pub fn dns_framed()
    ensures { DnsFramed }
{}
