//! Copies of settings, equal to what they are copied from. They share texts, which are not copied for them.
//!
//! Read the copy of [`Settings`] first. Each call answers `OutOfMemory` if memory was refused.
ghost use Rattle.std.specs.Prelude.{◌≡◌, IfOk};

use crate::{
    AboutOptions, AccessSettings, AddressLists, ListenSettings, Login, Master, MountOptions,
    MountSetting, MountSettings, OutOfMemory, RelayAccess, RelaySetting, RelaySettings, Settings,
    SlaveSetting, StreamOptions, UserOptions, WebSettings,
};

impl Clone for Settings {
    ghost is_clone = { λ settings other. other ≡ settings };

    fn clone(&self) -> Result<Settings, OutOfMemory> {
        let (access, listen, web) = service_again(self)?;
        let (mounts, other_mounts) = mounts_again(self)?;
        let (relays, slave) = pulls_again(self)?;
        Ok(Settings {
            access,
            listen,
            limits: self.limits,
            web,
            mounts,
            other_mounts,
            relays,
            slave,
        })
    }
}

/// Who may do what, where the server listens, and the web site.
fn service_again(
    settings: &Settings,
) -> Result<(AccessSettings, ListenSettings, WebSettings), OutOfMemory>
    ensures access { IfOk result (λ copies. copies.0 ≡ settings.now.access) }
    ensures listen { IfOk result (λ copies. copies.1 ≡ settings.now.listen) }
    ensures web { IfOk result (λ copies. copies.2 ≡ settings.now.web) }
{
    Ok((
        settings.access.clone()?,
        settings.listen.clone()?,
        settings.web.clone()?,
    ))
}

/// What holds for mounts that have a table, and for those that have none.
fn mounts_again(settings: &Settings) -> Result<(MountSettings, MountOptions), OutOfMemory>
    ensures mounts { IfOk result (λ copies. copies.0 ≡ settings.now.mounts) }
    ensures others { IfOk result (λ copies. copies.1 ≡ settings.now.other_mounts) }
{
    Ok((settings.mounts.again()?, settings.other_mounts.clone()?))
}

/// What is pulled from other servers.
fn pulls_again(settings: &Settings) -> Result<(RelaySettings, Option<SlaveSetting>), OutOfMemory>
    ensures relays { IfOk result (λ copies. copies.0 ≡ settings.now.relays) }
    ensures slave { IfOk result (λ copies. copies.1 ≡ settings.now.slave) }
{
    Ok((settings.relays.again()?, settings.slave.clone()?))
}

impl Clone for AccessSettings {
    ghost is_clone = { λ access other. other ≡ access };

    fn clone(&self) -> Result<AccessSettings, OutOfMemory> {
        Ok(AccessSettings {
            source_password: self.source_password.clone()?,
            admin: self.admin.clone()?,
            relays: self.relays.clone()?,
            addresses: self.addresses.clone()?,
        })
    }
}

impl Clone for Login {
    ghost is_clone = { λ login other. other ≡ login };

    fn clone(&self) -> Result<Login, OutOfMemory> {
        Ok(Login {
            username: self.username.clone()?,
            password: self.password.clone()?,
        })
    }
}

impl Clone for RelayAccess {
    ghost is_clone = { λ access other. other ≡ access };

    fn clone(&self) -> Result<RelayAccess, OutOfMemory> {
        Ok(RelayAccess {
            username: self.username.clone()?,
            password: self.password.clone()?,
        })
    }
}

impl Clone for AddressLists {
    ghost is_clone = { λ lists other. other ≡ lists };

    fn clone(&self) -> Result<AddressLists, OutOfMemory> {
        Ok(AddressLists {
            deny_ip: self.deny_ip.clone()?,
            allow_ip: self.allow_ip.clone()?,
        })
    }
}

impl Clone for ListenSettings {
    ghost is_clone = { λ listen other. other ≡ listen };

    fn clone(&self) -> Result<ListenSettings, OutOfMemory> {
        Ok(ListenSettings {
            address: self.address.clone()?,
            port: self.port,
            workers: self.workers,
        })
    }
}

impl Clone for WebSettings {
    ghost is_clone = { λ web other. other ≡ web };

    fn clone(&self) -> Result<WebSettings, OutOfMemory> {
        Ok(WebSettings {
            allow_origin: self.allow_origin.clone()?,
            icecast_status: self.icecast_status,
            page: self.page,
            public_url: self.public_url.clone()?,
        })
    }
}

impl Clone for MountSetting {
    ghost is_clone = { λ mount other. other ≡ mount };

    fn clone(&self) -> Result<MountSetting, OutOfMemory> {
        Ok(MountSetting {
            name: self.name,
            options: self.options.clone()?,
        })
    }
}

impl Clone for MountOptions {
    ghost is_clone = { λ options other. other ≡ options };

    fn clone(&self) -> Result<MountOptions, OutOfMemory> {
        Ok(MountOptions {
            source: self.source.clone()?,
            listeners: self.listeners,
            stream: self.stream.clone()?,
            users: self.users.clone()?,
        })
    }
}

impl Clone for StreamOptions {
    ghost is_clone = { λ options other. other ≡ options };

    fn clone(&self) -> Result<StreamOptions, OutOfMemory> {
        Ok(StreamOptions {
            hidden: self.hidden,
            burst_size: self.burst_size,
            mp3_metadata_interval: self.mp3_metadata_interval,
            stream_name: self.stream_name.clone()?,
            genre: self.genre.clone()?,
            about: self.about.clone()?,
        })
    }
}

impl Clone for AboutOptions {
    ghost is_clone = { λ options other. other ≡ options };

    fn clone(&self) -> Result<AboutOptions, OutOfMemory> {
        Ok(AboutOptions {
            description: self.description.clone()?,
            url: self.url.clone()?,
            bitrate: self.bitrate.clone()?,
        })
    }
}

impl Clone for UserOptions {
    ghost is_clone = { λ options other. other ≡ options };

    fn clone(&self) -> Result<UserOptions, OutOfMemory> {
        Ok(UserOptions {
            htpasswd: self.htpasswd.clone()?,
            allow_duplicate_users: self.allow_duplicate_users,
        })
    }
}

impl Clone for RelaySetting {
    ghost is_clone = { λ relay other. other ≡ relay };

    fn clone(&self) -> Result<RelaySetting, OutOfMemory> {
        Ok(RelaySetting {
            master: self.master.clone()?,
            mount: self.mount,
            local_mount: self.local_mount,
            login: self.login.clone()?,
            on_demand: self.on_demand,
        })
    }
}

impl Clone for SlaveSetting {
    ghost is_clone = { λ slave other. other ≡ slave };

    fn clone(&self) -> Result<SlaveSetting, OutOfMemory> {
        Ok(SlaveSetting {
            master: self.master.clone()?,
            login: self.login.clone()?,
            master_update_interval: self.master_update_interval,
        })
    }
}

impl Clone for Master {
    ghost is_clone = { λ master other. other ≡ master };

    fn clone(&self) -> Result<Master, OutOfMemory> {
        Ok(Master {
            server: self.server.clone()?,
            port: self.port,
        })
    }
}
