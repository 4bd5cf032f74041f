mod captures;
mod pcapng;
