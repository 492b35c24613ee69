//! The page of what is on air, which a browser opens at `/`.
//!
//! [`page`] is the answer. The page needs nothing from elsewhere. Its script asks `/status.json` every five seconds, and shows
//! the name of the first mount at the top. For each mount it shows the name, the title, the genre, the number of listeners, and a
//! player. It says so if nothing is on air, or the server does not answer. Its icon is a part of its text.
//!
//! `tests/live/try_page` opens it in a browser.
ghost use Rattle.std.specs.Prelude.{◌≡◌, ℕ, List, Option};
ghost use Rattle.radio_heads.specs.WebAnswer.{web_answer_text};
ghost use Rattle.radio_answers.specs.Page.{page_answer};

use radio_heads::{FieldValue, WebAnswer};

/// What a browser allows the page (Content Security Policy Level 3). These are its one script and its one style, by the SHA-256
/// of their texts, the icon in its text, and this server's answers to its script and its players. So a text of a stream, whatever
/// it holds, runs nothing and fetches nothing.
pub const POLICY: &str =
    r"default-src 'none'; script-src 'sha256-jzT/HkmIlWhA180bcabzXLk9iBI31SJctbC+ZLxbpIk='; style-src 'sha256-p8r0kjk/CTmiIuOmXXviRO1xt050aEmIax5R+aVXv0A='; img-src data:; connect-src 'self'; media-src 'self'; base-uri 'none'; form-action 'none'; frame-ancestors 'none'";

/// The page, in HTML (the HTML Living Standard) and ASCII.
pub const PAGE: &str = r##"<!DOCTYPE html>
<html lang="en">
<head>
<meta charset="utf-8">
<meta name="viewport" content="width=device-width, initial-scale=1">
<title>On air</title>
<link rel="icon" href="data:image/svg+xml,%3Csvg xmlns='http://www.w3.org/2000/svg' viewBox='0 0 16 16'%3E%3Cg fill='none' stroke='%23c33' stroke-width='2'%3E%3Ccircle cx='8' cy='8' r='1'/%3E%3Cpath d='M5 5a4 4 0 0 0 0 6M11 5a4 4 0 0 1 0 6M2 3a7 7 0 0 0 0 10M14 3a7 7 0 0 1 0 10'/%3E%3C/g%3E%3C/svg%3E">
<style>
:root { color-scheme: light dark; }
body { margin: 0 auto; max-width: 44rem; padding: 1rem; font: 1rem/1.5 system-ui, sans-serif; }
h1 { margin: 0 0 1rem; font-size: 1.5rem; overflow-wrap: anywhere; }
ul { margin: 0; padding: 0; list-style: none; }
li { margin: 0 0 1rem; padding: 1rem; border: 1px solid #8888; border-radius: .5rem; }
li > * { margin: 0; overflow-wrap: anywhere; }
h2 { font-size: 1.125rem; }
.title:empty, #state:empty { display: none; }
.more { font-size: .875rem; opacity: .75; }
.old li { opacity: .6; }
audio { display: block; box-sizing: border-box; width: 100%; margin-top: .5rem; }
button { margin-top: .5rem; font: inherit; }
</style>
</head>
<body>
<main>
<h1>On air</h1>
<p id="state" role="status"></p>
<ul id="mounts"></ul>
<noscript><p>A script tells what is on air, and this browser does not run it.</p></noscript>
</main>
<script>
'use strict';

const pause = 5000;
const patience = 4000;
// How long a player whose stream has ended waits before it asks again, in milliseconds: this at first, and this at most.
const shortest = 1000;
const longest = 30000;
// After so many seconds of a stream the next wait is the shortest again.
const steady = 10;
const state = document.getElementById('state');
const list = document.getElementById('mounts');
const heading = document.querySelector('h1');
const entries = new Map();

// Beside this page, which a proxy may have put under a path of its own.
function addressOf(path) {
  return new URL('.' + path, location.href).href;
}

function append(parent, kind, name) {
  const part = document.createElement(kind);
  part.className = name;
  parent.append(part);
  return part;
}

function tell(text) {
  if (state.textContent !== text) state.textContent = text;
}

function makeEntry(mount) {
  const item = document.createElement('li');
  const entry = {
    item,
    name: append(item, 'h2', 'name'),
    title: append(item, 'p', 'title'),
    more: append(item, 'p', 'more'),
    player: append(item, 'audio', 'player'),
    stop: append(item, 'button', 'stop'),
    address: addressOf(mount.split('/').map(encodeURIComponent).join('/')),
    isListed: true,
    isWanted: false,
    isWaiting: false,
    pause: shortest,
    timer: 0,
  };
  entry.player.controls = true;
  entry.player.preload = 'none';
  entry.player.src = entry.address;
  entry.player.addEventListener('play', () => wish(entry));
  entry.player.addEventListener('pause', () => entry.player.ended || entry.isWaiting || giveUp(entry));
  entry.player.addEventListener('ended', () => askLater(entry));
  entry.player.addEventListener('error', () => askLater(entry));
  entry.stop.type = 'button';
  entry.stop.textContent = 'Stop asking';
  entry.stop.hidden = true;
  entry.stop.addEventListener('click', () => giveUp(entry));
  return entry;
}

// A player whose source is set again has closed its connection, and opens none before it plays.
function drop(entry) {
  clearTimeout(entry.timer);
  entry.isWaiting = false;
  entry.stop.hidden = true;
  entry.player.src = entry.address;
}

function wish(entry) {
  clearTimeout(entry.timer);
  entry.isWanted = true;
  entry.isWaiting = false;
  entry.stop.hidden = true;
}

function giveUp(entry) {
  entry.isWanted = false;
  entry.pause = shortest;
  drop(entry);
}

// The stream has ended, or there is none. Each further time is later, unless the stream has played for a while.
function askLater(entry) {
  if (entry.player.currentTime > steady) entry.pause = shortest;
  drop(entry);
  if (!entry.isWanted) return;
  entry.isWaiting = true;
  entry.stop.hidden = false;
  entry.timer = setTimeout(() => askAgain(entry), entry.pause);
  entry.pause = Math.min(2 * entry.pause, longest);
}

function askAgain(entry) {
  if (!entry.isWaiting || document.hidden) return;
  entry.player.play().catch((fault) => {
    if (fault.name === 'NotAllowedError') giveUp(entry);
  });
}

function fill(entry, row) {
  const name = row.name || row.mount;
  const listeners = row.listeners === 1 ? '1 listener' : row.listeners + ' listeners';
  entry.name.textContent = name;
  entry.title.textContent = row.title;
  entry.more.textContent = row.genre ? row.genre + ' \u00b7 ' + listeners : listeners;
  entry.player.setAttribute('aria-label', name);
}

// A mount whose source has gone stays while somebody wants to hear it, since its listeners may hear its fallback.
function letGo(mount, entry) {
  entry.isListed = false;
  if (entry.isWanted) {
    entry.title.textContent = '';
    entry.more.textContent = 'has no source now';
    return;
  }
  entry.item.remove();
  entries.delete(mount);
}

// The station has the name of its first mount, and keeps it while nothing is on air.
function nameStation(mounts) {
  const name = mounts.length > 0 ? mounts[0].name : '';
  if (!name || heading.textContent === name) return;
  heading.textContent = name;
  document.title = name;
}

// Who stands in the list already is not moved, since a player that is moved stops.
function show(mounts) {
  const named = new Set(mounts.map((row) => row.mount));
  for (const [mount, entry] of entries) {
    if (!named.has(mount)) letGo(mount, entry);
  }
  let next = list.firstElementChild;
  for (const row of mounts) {
    let entry = entries.get(row.mount);
    if (entry) {
      next = entry.item.nextElementSibling;
      if (!entry.isListed) askAgain(entry);
      entry.isListed = true;
    } else {
      entry = makeEntry(row.mount);
      entries.set(row.mount, entry);
      list.insertBefore(entry.item, next);
    }
    fill(entry, row);
  }
  nameStation(mounts);
  list.className = '';
  tell(mounts.length === 0 ? 'Nothing is on air.' : '');
}

async function read() {
  const stop = new AbortController();
  const late = setTimeout(() => stop.abort(), patience);
  try {
    const answer = await fetch(addressOf('/status.json'), { cache: 'no-store', signal: stop.signal });
    if (!answer.ok) throw new Error('status ' + answer.status);
    return (await answer.json()).mounts;
  } finally {
    clearTimeout(late);
  }
}

let isReading = false;
let turn = 0;

// Nothing is asked while the page is hidden.
async function refresh() {
  clearTimeout(turn);
  if (isReading || document.hidden) return;
  isReading = true;
  try {
    show(await read());
  } catch (fault) {
    list.className = 'old';
    for (const entry of entries.values()) entry.isListed = false;
    tell('The server does not answer.');
  }
  isReading = false;
  turn = setTimeout(refresh, pause);
}

document.addEventListener('visibilitychange', () => {
  for (const entry of entries.values()) askAgain(entry);
  refresh();
});
tell('The server is being asked.');
refresh();
</script>
</body>
</html>
"##;

/// The answer at `/`: the page, under its policy.
// rule: Web page
#[tactic(auto, unfolding(crate::specs::Page::page_answer))]
pub fn page() -> WebAnswer<'static>
    ensures { (origin : Option (List ℕ)) → web_answer_text origin result ≡ page_answer origin }
{
    WebAnswer::Page {
        policy: FieldValue::new(POLICY.as_bytes()),
        body: PAGE.as_bytes(),
    }
}
