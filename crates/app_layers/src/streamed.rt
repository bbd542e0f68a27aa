ghost use Rattle.std.specs.Prelude.{◌≡◌};
ghost use Rattle.app_layers.specs.MessageLayers.{application, framing};

use pk_fields::App;
use stream_messages::Framer;

/// An application that has messages in streams, and where they end.
#[derive(Clone, Copy)]
pub struct StreamApp {
    pub app: App,
    pub framer: Framer,
}

/// Where the messages of a stream end, if its application is known.
pub fn framing(app: Option<StreamApp>) -> Option<Framer>
    ensures { result ≡ framing app }
{
    Some(app?.framer)
}

/// The application of a stream, if it is known.
pub fn application(app: Option<StreamApp>) -> Option<App>
    ensures { result ≡ application app }
{
    Some(app?.app)
}
