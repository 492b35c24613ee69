//! The files that the settings name.

ghost use Rattle.std.specs.Prelude.{◌≡◌, ℕ, List, IfOk, OnOk, Ok};
ghost use Rattle.radio_addr.specs.Lists.{list_of};
ghost use Rattle.radio_creds.specs.UserList.{users_of};
ghost use Rattle.radio_startup.specs.Files.{AreAddresses, AreListsOf, HasUsersOf, ReadUsers, ReadsAddresses};
ghost use Rattle.radio_startup.specs.Unread.{IsBadLine};

use crate::fault::FileFault;
use crate::reading::ReadsFiles;
use radio_access::Lists;
use radio_addr::{AddressList, ListFault};
use radio_creds::Users;
use radio_settings_values::{AddressLists, MountSetting, Settings};
use radio_values::Text;
use std::alloc::Global;

/// What the files hold that the settings name: `deny-ip`, then `allow-ip`, then each mount's
/// `htpasswd` in the order of the tables. The fault is the first one.
// rule: Files of the settings
pub fn read_lists<F: ReadsFiles>(files: &F, settings: &Settings) -> Result<Lists, FileFault>
    ensures { IfOk result (λ lists. AreListsOf (F.holds files.now) settings.now lists) }
{
    let mut lists = Lists::new(files.alloc());
    read_address_lists(files, &settings.access.addresses, &mut lists)?;
    read_user_lists(files, settings.mounts.as_slice(), &mut lists)?;
    Ok(lists)
}

fn read_address_lists<F: ReadsFiles>(
    files: &F,
    named: &AddressLists,
    lists: &mut Lists,
) -> Result<(), FileFault>
    ensures { OnOk result (ReadsAddresses (F.holds files.now) named.now lists.old lists.new) }
{
    deny(files, &named.deny_ip, lists)?;
    allow(files, &named.allow_ip, lists)
}

fn deny<F: ReadsFiles>(files: &F, path: &Option<Text>, lists: &mut Lists) -> Result<(), FileFault>
    ensures denied { OnOk result (AreAddresses (F.holds files.now) path.now lists.old.denied lists.new.denied) }
    ensures others { OnOk result (lists.new ≡ record lists.old { denied = lists.new.denied }) }
{
    if let Some(path) = path {
        lists.deny(read_addresses(files, path)?);
    }
    Ok(())
}

fn allow<F: ReadsFiles>(files: &F, path: &Option<Text>, lists: &mut Lists) -> Result<(), FileFault>
    ensures allowed { OnOk result (AreAddresses (F.holds files.now) path.now lists.old.allowed lists.new.allowed) }
    ensures others { OnOk result (lists.new ≡ record lists.old { allowed = lists.new.allowed }) }
{
    if let Some(path) = path {
        lists.allow(read_addresses(files, path)?);
    }
    Ok(())
}

fn read_user_lists<F: ReadsFiles>(
    files: &F,
    mounts: &[MountSetting],
    lists: &mut Lists,
) -> Result<(), FileFault>
    ensures { OnOk result (ReadUsers (F.holds files.now) mounts.now lists.old lists.new) }
{
    for mount in mounts {
        read_users_of(files, mount, lists)?;
    }
    Ok(())
}

fn read_users_of<F: ReadsFiles>(
    files: &F,
    mount: &MountSetting,
    lists: &mut Lists,
) -> Result<(), FileFault>
    ensures { OnOk result (HasUsersOf (F.holds files.now) mount.now.name mount.now.options.users.htpasswd lists.old lists.new) }
{
    let Some(path) = &mount.options.users.htpasswd else {
        return Ok(());
    };
    let users = read_users(files, path)?;
    match lists.set_users(mount.name, users) {
        Ok(()) => Ok(()),
        Err(_) => Err(FileFault::OutOfMemory),
    }
}

/// The list of addresses of the file of this path.
pub(crate) fn read_addresses<F: ReadsFiles>(
    files: &F,
    path: &Text,
) -> Result<AddressList, FileFault>
    ensures { IfOk result (λ list. (bytes : List ℕ) × F.holds files.now path.now bytes × (list_of bytes ≡ Ok list)) }
{
    let bytes = files.read(path.as_str())?;
    match AddressList::read(files.alloc(), bytes.as_slice()) {
        Ok(list) => Ok(list),
        Err(ListFault::LineFault { line }) => Err(line_fault(files.alloc(), path.as_str(), line)),
        Err(ListFault::OutOfMemory) => Err(FileFault::OutOfMemory),
    }
}

fn read_users<F: ReadsFiles>(files: &F, path: &Text) -> Result<Users, FileFault>
    ensures { IfOk result (λ users. (bytes : List ℕ) × F.holds files.now path.now bytes × (users ≡ users_of bytes)) }
{
    let bytes = files.read(path.as_str())?;
    match Users::read(files.alloc(), bytes.as_slice()) {
        Ok(users) => Ok(users),
        Err(_) => Err(FileFault::OutOfMemory),
    }
}

/// This line of the file of this path is no address. `OutOfMemory` if memory is refused for the path.
fn line_fault(alloc: Global, path: &str, line: usize) -> FileFault
    ensures { IsBadLine path.now line result }
{
    match String::from_str(alloc, path) {
        Ok(path) => FileFault::Line { path, line },
        Err(_) => FileFault::OutOfMemory,
    }
}
