//! What a station's web site reads: the table `[web]`, and the paths that it puts on.
ghost use Rattle.std.specs.Prelude.{◌≡◌};
ghost use Rattle.radio_settings_values.specs.Web.{is_web_path, web_path};

use radio_values::{AllowedOrigin, Text};

/// The table `[web]`: what is meant for browsers and the scripts of web sites. If it is absent, nothing of it is
/// on.
pub struct WebSettings {
    /// Whose pages may read streams and what everybody may read; `None` if nothing is said of it.
    pub allow_origin: Option<AllowedOrigin>,
    /// Whether `/status-json.xsl` answers what Icecast answers there.
    pub icecast_status: bool,
    /// Whether `/` answers a page of what is on air.
    pub page: bool,
    /// What is written before a mount's name in its public URL; `None` for how the client calls the server.
    pub public_url: Option<Text>,
}

impl Drop for WebSettings {
    fn drop(self) {
        let WebSettings {
            allow_origin,
            icecast_status: _,
            page: _,
            public_url,
        } = self;
        drop(allow_origin);
        drop(public_url);
    }
}

/// What a path of the web site names.
#[derive(Clone, Copy, Debug, PartialEq, Eq)]
pub enum WebPath {
    /// `/status-json.xsl`: what Icecast answers there.
    IcecastStatus,
    /// `/`: the page of what is on air.
    Page,
}

impl WebSettings {
    /// What a path names in the web site; `None` if it names nothing there, or that is not on.
    // rule: Web table
    #[tactic(auto, unfolding(crate::specs::Web::web_path))]
    pub fn path(&self, path: &[u8]) -> Option<WebPath>
        ensures { result ≡ web_path self.now path.now }
    {
        if self.icecast_status && path == b"/status-json.xsl".as_slice() {
            return Some(WebPath::IcecastStatus);
        }
        if self.page && path == b"/".as_slice() {
            return Some(WebPath::Page);
        }
        None
    }

    /// Whether the path is one of the web site, so that no mount can have it for its name.
    // rule: Web table
    pub fn has(&self, path: &[u8]) -> bool
        ensures { result ≡ is_web_path self.now path.now }
    {
        self.path(path).is_some()
    }
}
