//! The routes of requests, and the methods of their paths.
use crate::client_heads as clients;
use nm_day::Day;
use nm_http::{HttpError, Route, Routes, request};
use nm_ident::{Ident, NoMemory, Text};
use std::alloc::Global;

/// The project that the heads name.
const PROJECT: u128 = 0x3000_0000_0000_4000_8000_0000_0000_0001;

/// The resource that the heads name.
const RESOURCE: u128 = 0x2000_0000_0000_4000_8000_0000_0000_0001;

fn assembly(day: &[u8]) -> Option<Route> {
    let day = Day::parse(day).ok()?;
    Some(Route::Assemble { day })
}

fn object(day: &[u8], ident: Ident) -> Option<Route> {
    let day = Day::parse(day).ok()?;
    Some(Route::Object { day, ident })
}

fn filing(day: &[u8]) -> Option<Route> {
    let day = Day::parse(day).ok()?;
    Some(Route::File { day })
}

fn redating(project: u128, day: &[u8]) -> Option<Route> {
    let day = Day::parse(day).ok()?;
    Some(Route::Redate { project, day })
}

/// The route of a head, or the status with which it is refused.
fn routed(alloc: Global, routes: &Routes, head: &[u8]) -> Result<Route, HttpError> {
    let request = request(alloc, head)?;
    routes.route(alloc, &request)
}

fn is_routed(alloc: Global, routes: &Routes, head: &[u8], due: Option<Route>) -> bool {
    match (routed(alloc, routes, head), due) {
        (Ok(route), Some(due)) => route == due,
        _ => false,
    }
}

fn is_status(answer: Result<Route, HttpError>, due: u16) -> bool {
    match answer {
        Ok(_) => false,
        Err(HttpError::Status(status)) => status == due,
        Err(HttpError::NoMemory) => false,
    }
}

#[test]
fn queries_find_their_routes(rt: HostRuntime) -> Result<(), NoMemory> {
    let alloc = rt.alloc();
    let routes = Routes::new(alloc)?;
    let head = b"GET /assembly/2027-04-01 HTTP/1.1\r\n\r\n";
    assert!(rt; is_routed(alloc, &routes, head, assembly(b"2027-04-01")));
    let head = b"GET /object/2027-04-01/_20000000-0000-4000-8000-000000000001 HTTP/1.1\r\n\r\n";
    let due = object(b"2027-04-01", Ident::Uuid(RESOURCE));
    assert!(rt; is_routed(alloc, &routes, head, due));
    let due = Route::Timeline {
        ident: Ident::Uuid(RESOURCE),
    };
    assert!(rt; is_routed(alloc, &routes, clients::PYTHON_GET_BY_URLLIB, Some(due)));
    assert!(rt; is_routed(alloc, &routes, clients::CURL_GET, Some(Route::Projects)));
    assert!(rt; is_routed(alloc, &routes, clients::CHROMIUM_PAGE, Some(Route::Log)));
    Ok(())
}

#[test]
fn commands_find_their_routes(rt: HostRuntime) -> Result<(), NoMemory> {
    let alloc = rt.alloc();
    let routes = Routes::new(alloc)?;
    assert!(rt;
        is_routed(
            alloc,
            &routes,
            clients::CHROMIUM_POST,
            filing(b"2027-04-01")
        )
    );
    let due = Route::Revise { project: PROJECT };
    assert!(rt; is_routed(alloc, &routes, clients::CURL_PUT, Some(due)));
    let due = redating(PROJECT, b"2027-05-01");
    assert!(rt; is_routed(alloc, &routes, clients::PYTHON_PUT_DAY, due));
    let due = Route::Withdraw { project: PROJECT };
    assert!(rt; is_routed(alloc, &routes, clients::CURL_DELETE, Some(due)));
    Ok(())
}

#[test]
fn other_requests_have_no_route(rt: HostRuntime) -> Result<(), NoMemory> {
    let alloc = rt.alloc();
    let routes = Routes::new(alloc)?;
    let cases: [(&[u8], u16); 12] = [
        (clients::CHROMIUM_ICON, 404),
        (b"GET /projects/ HTTP/1.1\r\n\r\n", 404),
        (b"GET /log?all HTTP/1.1\r\n\r\n", 404),
        (b"GET /assembly/2027-02-29 HTTP/1.1\r\n\r\n", 404),
        (b"PUT /project//day/2027-04-01 HTTP/1.1\r\n\r\n", 404),
        (
            b"GET /timeline/20000000-0000-4000-8000-000000000001 HTTP/1.1\r\n\r\n",
            404,
        ),
        (b"GET /timeline/%41 HTTP/1.1\r\n\r\n", 404),
        (b"DELETE /projects HTTP/1.1\r\n\r\n", 405),
        (b"get /log HTTP/1.1\r\n\r\n", 405),
        (clients::CURL_HEAD, 405),
        (clients::CURL_POST_WITHOUT_LENGTH, 411),
        (b"PUT /project/x HTTP/1.1\r\n\r\n", 411),
    ];
    for (head, due) in cases {
        assert!(rt; is_status(routed(alloc, &routes, head), due), "{due}");
    }
    Ok(())
}

/// The methods that are told of a request's path, or `-`.
fn allowed(alloc: Global, routes: &Routes, head: &[u8]) -> Result<Text, HttpError> {
    let request = request(alloc, head)?;
    match routes.allow(alloc, &request)? {
        Some(methods) => Ok(methods),
        None => Ok(Text::of_slice(alloc, b"-")?),
    }
}

fn is_allowed(alloc: Global, routes: &Routes, head: &[u8], due: &[u8]) -> bool {
    match allowed(alloc, routes, head) {
        Ok(methods) => methods.as_slice() == due,
        Err(_) => false,
    }
}

#[test]
fn methods_of_a_path_are_told(rt: HostRuntime) -> Result<(), NoMemory> {
    let alloc = rt.alloc();
    let routes = Routes::new(alloc)?;
    assert!(rt; is_allowed(alloc, &routes, clients::CURL_GET, b"GET"));
    assert!(rt; is_allowed(alloc, &routes, clients::CURL_DELETE, b"PUT, DELETE"));
    assert!(rt; is_allowed(alloc, &routes, clients::CHROMIUM_POST, b"POST"));
    assert!(rt; is_allowed(alloc, &routes, clients::CURL_PUT_DAY, b"PUT"));
    assert!(rt; is_allowed(alloc, &routes, clients::CHROMIUM_ICON, b"-"));
    Ok(())
}
